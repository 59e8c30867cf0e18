// Definitions only: the rules of the normal form, one step after another. See specs/.
#![tactic(auto)]

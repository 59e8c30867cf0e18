// Definitions only: the normal form, its size and its bounds. See specs/.
#![tactic(auto)]

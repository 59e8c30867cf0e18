// Definitions only: the calculus of document 01. See specs/.
#![tactic(auto)]

// Definitions only: refusals 24, 25 and 26. See specs/.
#![tactic(auto)]

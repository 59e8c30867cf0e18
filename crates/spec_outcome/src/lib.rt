// Definitions only: the written form and the outcome of each open call. See specs/.
#![tactic(auto)]

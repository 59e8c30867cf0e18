// Definitions only: tariffs, their bytes, the dues on an answer, and the outcome of the call. See specs/.
#![tactic(auto)]

// Definitions only: two logs paired, the three tables as records, and the outcome of the call. See specs/.
#![tactic(auto)]

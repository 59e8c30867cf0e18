// Definitions only: the plan as the executor walks it, one offered row at a time. See specs/.
#![tactic(auto)]

// Definitions only: the plan, its operators, the planner and the plan's lines. See specs/.
#![tactic(auto)]

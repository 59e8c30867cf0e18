// Definitions only: the days of the years 2000 to 2399, and the hours of locks and berths. See specs/.
#![tactic(auto)]

// Definitions only: the subsets of a table's rows, and the outcome of the call that counts over them. See specs/.
#![tactic(auto)]

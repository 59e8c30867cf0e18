// Definitions only: a question kept as nodes, what a node comes to, and the words of a normal form. See specs/.
#![tactic(auto)]

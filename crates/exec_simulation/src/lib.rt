// What the words of a running plan stand for: definitions and laws only.
#![tactic(auto)]

// Linked and marked words are wired: laws only.
#![tactic(auto)]

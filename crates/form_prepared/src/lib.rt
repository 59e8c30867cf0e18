// An accepted question in scratch, as answering and planning find it, and what a part leaves that answers it: laws only.
#![tactic(auto)]

// Theorems only: what holds over the contracts of the open calls. See proofs/.
#![tactic(auto)]

// Definitions only: what the desk program prints. See specs/.
#![tactic(auto)]

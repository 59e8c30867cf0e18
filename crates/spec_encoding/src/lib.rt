// Definitions only: tables and questions as bytes. See specs/.
#![tactic(auto)]

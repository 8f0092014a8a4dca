// Theorems about circuits alone: see specs/.
#![tactic(auto)]

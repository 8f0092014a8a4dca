// Theorems about a problem written as a file: see specs/.
#![tactic(auto)]

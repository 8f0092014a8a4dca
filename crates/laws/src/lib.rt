// Theorems about the definitions of `meaning` alone, with no program in sight: all of it stands in specs/. There is no code here.
#![tactic(auto)]

// Theorems over the definitions of every layer stand in specs/. There is no code here.
#![tactic(auto)]

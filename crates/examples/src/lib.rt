// Examples that are computed against the definitions, so that the theorems are not empty. There is no code here.
#![tactic(auto)]

// The demands as theorems over the rules. No code.
#![tactic(auto)]

// The wrong machines, and which demand each breaks. No code.
#![tactic(auto)]

// The three demands, stated and proved: definitions and theorems, no code.
#![tactic(auto)]

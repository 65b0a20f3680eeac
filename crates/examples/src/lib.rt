// Worked examples of the definitions: statements with their proofs, no code.
#![tactic(auto)]

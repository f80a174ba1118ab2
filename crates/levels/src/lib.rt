// The levels of a base and of a curve, by refinement: definitions and their proofs, and no code.
#![tactic(auto)]

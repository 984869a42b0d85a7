// The three demands, the starred examples and the five impostors: statements and their proofs, and no code.
#![tactic(auto)]

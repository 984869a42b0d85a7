// What a promise is, and what a call leaves in lent memory: definitions and laws alone, no code.
#![tactic(auto)]

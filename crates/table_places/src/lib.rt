// The rows and the words that an announcement and a withdrawal leave, with no choice left: definitions and laws alone, no code.
#![tactic(auto)]

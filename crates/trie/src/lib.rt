// Sets of routes, the plain scan and the priority trie over bit strings of any length: definitions and laws alone, no code.
#![tactic(auto)]

// The image's tree of slots, breadth first, its words and the lookup on any words: definitions and laws alone, no code.
#![tactic(auto)]

// Numbers, bits, prefixes and bitmaps, once over the width and the number of slots: definitions and laws alone, no code.
#![tactic(auto)]

// The run listing: of any port of an address, of a list and of a table, over the width. Definitions and laws alone, no code.
#![tactic(auto)]

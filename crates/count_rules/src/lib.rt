// How many addresses each port gets, and the updates that keep the counts in step: definitions and laws over the width.
#![tactic(auto)]

// The ports that are counted: 0, for no route, to 4094.
pub const PORTS: usize = 4095;

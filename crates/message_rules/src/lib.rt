// UPDATE messages of RFC 4271 with IPv4 prefixes: definitions and laws over the width, and the sizes that the code shares.
#![tactic(auto)]

pub mod prefixes;

// A message with nothing in it: marker, length, type and the two lengths of what it leaves out.
pub const LEAST_SIZE: usize = 23;

// The longest message that RFC 4271 allows.
pub const MOST_SIZE: usize = 4096;

// The first sixteen bytes are a marker, all ones.
pub const MARKER_SIZE: usize = 16;

// Where the fields stand: the length of the message, its type, and the length of its withdrawn part, which follows.
pub const LENGTH_AT: usize = 16;

pub const TYPE_AT: usize = 18;

pub const WITHDRAWN_SIZE_AT: usize = 19;

pub const WITHDRAWN_AT: usize = 21;

// The type of an UPDATE.
pub const UPDATE: u8 = 2;

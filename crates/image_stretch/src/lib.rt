// A node of the image as a stretch of the sorted route list, and the memory of a builder whose queue is the nodes lent.
#![tactic(auto)]

use image_numbers::{Leaf, Node};

// What half a word holds: of a node still to do, the first and the last of its routes, its depth, and its port.
pub const HALF_WORD: u32 = 65536;

// A node still to do: the routes lo..hi of the list are those that begin with its bits; best is the port that it inherits.
#[derive(Clone, Copy, Debug, PartialEq, Eq)]
pub struct Stretch {
    pub lo: usize,
    pub hi: usize,
    pub depth: u32,
    pub best: u32,
}

// A node's slots so far: its bitmap, and the first node and the first leaf that are then not in use.
#[derive(Clone, Copy, Debug, PartialEq, Eq)]
pub struct Filled {
    pub bitmap: u32,
    pub node: Node,
    pub leaf: Leaf,
}

// The first node and the first leaf that are not in use.
#[derive(Clone, Copy, Debug, PartialEq, Eq)]
pub struct Free {
    pub node: Node,
    pub leaf: Leaf,
}

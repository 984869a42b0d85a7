// The numbers of an image, apart from any words lent: the three kinds that the rules keep apart, RULES, "Nodes", and strides with their slots.
#![tactic(auto)]

ghost use Rattle.std.specs.Prelude.{◌≡◌, ◌+◌, ◌-◌, ◌%◌, ◌^◌, ◌<◌, ◌≤◌};
ghost use Rattle.image_rules.specs.Lookup.{is_stride};
ghost use Rattle.image_numbers.specs.Slots.{slots_of};

// A node's number; nodes are numbered from 1.
#[derive(Clone, Copy, Debug, PartialEq, Eq)]
pub struct Node(pub usize);

// From one node number to another.
#[derive(Clone, Copy, Debug, PartialEq, Eq)]
pub struct Distance(pub usize);

// A leaf's number: the place of its port.
#[derive(Clone, Copy, Debug, PartialEq, Eq)]
pub struct Leaf(pub usize);

impl Node {
    // The first node.
    pub const ROOT: Node = Node(1);

    // The one sum that the rules allow: a node number and a distance make a node number. A sum of 2^64 or more cannot be written, and
    // wraps; those of a lookup and of a builder are far below.
    pub fn plus(self, distance: Distance) -> Node
        ensures { result.0 ≡ (self.0 + distance.0) % 2 ^ 64 }
    {
        Node(self.0.wrapping_add(distance.0))
    }

    // The distance to a later node; 0 to one that is not later.
    pub fn to(self, later: Node) -> Distance
        ensures { result.0 ≡ later.0 - self.0 }
    {
        Distance(later.0.saturating_sub(self.0))
    }
}

impl Leaf {
    // The leaf that comes so many leaves after this one. A count of leaves is none of the three kinds of number. Wraps as Node::plus does.
    pub fn after(self, count: usize) -> Leaf
        ensures { result.0 ≡ (self.0 + count) % 2 ^ 64 }
    {
        Leaf(self.0.wrapping_add(count))
    }
}

// A word as a number of its own.
pub fn wide(x: u32) -> usize
    ensures { (result ≡ x) × (result < 2 ^ 32) }
{
    x as usize
}

// Whether a number is a stride: 1, 2 or 4.
pub fn is_stride(stride: u32) -> bool
    ensures { result ≡ is_stride stride }
{
    matches!(stride, 1 | 2 | 4)
}

// 2^stride, the slots of a node; 0 for what is no stride.
pub fn slots_of(stride: u32) -> u32
    ensures { (result ≡ slots_of stride) × (result ≤ 16) }
{
    if is_stride(stride) { 1 << stride } else { 0 }
}

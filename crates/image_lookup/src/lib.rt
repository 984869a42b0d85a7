// The image's lookup, on whatever words and ports are lent: at most 32 / stride nodes are read.
#![tactic(auto)]

ghost use Rattle.std.specs.Prelude.{◌≡◌, ◌+◌, ◌-◌, ◌*◌, ◌%◌, ◌^◌, ◌<◌, ◌≤◌, ◌==◌};
ghost use Rattle.bits.specs.Bitmap.{slot_bit, ones_before};
ghost use Rattle.image_rules.specs.Lookup.{leaf_at, lookup_words};
ghost use Rattle.refusals.specs.Refusals.{not_in_order, lost, found_of};
ghost use Rattle.image_numbers.specs.Needs.{Stride};
ghost use Rattle.image_lookup.specs.Needs.{most_slots_before, InSlots};

use image_nodes::{bitmap_of, next_of, node_count};
use image_numbers::{Distance, Leaf, Node, slots_of, wide};
use refusals::Fault;
use refusals::found::{Lost, Reached};
use routes::LAST_PORT;

pub mod many;

// The number of ones in the slots before slot j: the count of ones of the bitmap's part before it.
fn ones_before(slots: u32, bitmap: u32, j: u32) -> u32
    requires { InSlots slots bitmap j }
    ensures { result ≡ ones_before slots bitmap j }
{
    (bitmap >> (slots - j)).count_ones()
}

fn is_leaf(slots: u32, bitmap: u32, j: u32) -> bool
    requires { InSlots slots bitmap j }
    ensures { result ≡ (slot_bit slots bitmap j == 1) }
{
    (bitmap >> (slots - 1 - j)) % 2 == 1
}

// A refusal of what is lent, with the nodes read so far.
fn not_in_order(reads: u32) -> Result<Reached, Lost>
    ensures { found_of result ≡ lost not_in_order reads }
{
    Err(Lost {
        fault: Fault::NotInOrder,
        reads,
    })
}

// What leaf number `leaf` answers. Refuses 11 where it is past the ports lent or its port is above 4094.
fn port_at(ports: &[u16], leaf: Leaf, reads: u32) -> Result<Reached, Lost>
    ensures { found_of result ≡ leaf_at ports.now leaf.0 reads }
{
    match ports.get(leaf.0) {
        Some(port) if u32::from(*port) <= LAST_PORT => Ok(Reached {
            port: u32::from(*port),
            reads,
        }),
        _ => not_in_order(reads),
    }
}

// The slots of all nodes before this one.
fn slots_before(slots: u32, at: Node) -> usize
    requires { (slots ≤ 16) × (0 < at.0) × (at.0 < 2 ^ 60) }
    ensures { (result ≡ slots * (at.0 - 1)) × (result ≤ most_slots_before) }
{
    wide(slots) * (at.0 - 1)
}

// How many of them hold a child, where `next` is the next unused number: children have the numbers from 2 on. A number below 2 wraps
// past the slots of all nodes, so that one comparison refuses it too.
fn children_before(next: Node) -> usize
    ensures { result ≡ (next.0 + 2 ^ 64 - 2) % 2 ^ 64 }
{
    next.0.wrapping_sub(2)
}

// On a leaf: its number is the leaf base, all slots before the node but the children's, plus the ones before its slot.
fn leaf_of(slots: usize, children: usize, ones: u32) -> Leaf
    requires { (children ≤ slots) × (slots ≤ most_slots_before) × (ones ≤ 16) }
    ensures { result.0 ≡ slots - children + ones }
{
    Leaf(slots - children).after(wide(ones))
}

// Else: the child's number is the next unused one plus the zeros before its slot.
fn child_of(next: Node, zeros: u32) -> Node
    requires { next.0 < 2 ^ 62 }
    ensures { result.0 ≡ next.0 + zeros }
{
    next.plus(Distance(wide(zeros)))
}

// The walk down from the root. The stride is a constant, so that the compiler makes a walk for each stride alone, and unfolds it where it
// is called. No node has the number 0: the root's is 1, and distances are only added to it.
#[inline(always)]
fn descend<const STRIDE: u32>(nodes: &[u32], ports: &[u16], address: u32) -> Result<Reached, Lost>
    requires { Stride STRIDE }
    ensures { found_of result ≡ lookup_words 32 STRIDE nodes.now ports.now address }
{
    let slots = slots_of(STRIDE);
    let mut at = Node::ROOT;
    let mut reads = 0;
    for left in (0..32 / STRIDE).rev() {
        if node_count(nodes) < at.0 {
            return not_in_order(reads);
        }
        reads += 1;
        let bitmap = bitmap_of(nodes, at);
        if bitmap >> slots != 0 {
            return not_in_order(reads);
        }
        let next = next_of(nodes, at);
        let before = slots_before(slots, at);
        let children = children_before(next);
        if before < children {
            return not_in_order(reads);
        }
        let j = (address >> (STRIDE * left)) % slots;
        let ones = ones_before(slots, bitmap, j);
        if is_leaf(slots, bitmap, j) {
            return port_at(ports, leaf_of(before, children, ones), reads);
        }
        at = child_of(next, j - ones);
    }
    // A non-leaf at the last depth.
    not_in_order(reads)
}

// The lookup at stride 1. Refuses 11 at place 0, with the nodes read so far.
pub fn lookup_1(nodes: &[u32], ports: &[u16], address: u32) -> Result<Reached, Lost>
    ensures { found_of result ≡ lookup_words 32 1 nodes.now ports.now address }
{
    descend::<1>(nodes, ports, address)
}

// The lookup at stride 2. Refuses 11 at place 0, with the nodes read so far.
pub fn lookup_2(nodes: &[u32], ports: &[u16], address: u32) -> Result<Reached, Lost>
    ensures { found_of result ≡ lookup_words 32 2 nodes.now ports.now address }
{
    descend::<2>(nodes, ports, address)
}

// The lookup at stride 4. Refuses 11 at place 0, with the nodes read so far.
pub fn lookup_4(nodes: &[u32], ports: &[u16], address: u32) -> Result<Reached, Lost>
    ensures { found_of result ≡ lookup_words 32 4 nodes.now ports.now address }
{
    descend::<4>(nodes, ports, address)
}

// The port of an address and the nodes read. Refuses 12, then 11 with the nodes read so far, both at place 0. Unfolded where it is called, so
// that at a constant stride its walk alone is left.
#[inline(always)]
pub fn lookup(stride: u32, nodes: &[u32], ports: &[u16], address: u32) -> Result<Reached, Lost>
    ensures { found_of result ≡ lookup_words 32 stride nodes.now ports.now address }
{
    match stride {
        1 => descend::<1>(nodes, ports, address),
        2 => descend::<2>(nodes, ports, address),
        4 => descend::<4>(nodes, ports, address),
        _ => Err(Lost {
            fault: Fault::WrongStride,
            reads: 0,
        }),
    }
}

// A node in the words lent: RULES, "Nodes". No other code knows where the words of a node are.
#![tactic(auto)]

ghost use Rattle.std.specs.Prelude.{◌≡◌, ◌^◌, ◌≤◌, ◌<◌, MatchBool, false};
ghost use Rattle.image_rules.specs.Node.{node_count, is_node, node_start, bitmap_of, next_of, store_node};
ghost use Rattle.image_nodes.specs.Words.{node_at, words_of_node};
ghost use Rattle.image_nodes.specs.Needs.{Lent};

use image_numbers::{Distance, Node, wide};

// The words of a node.
pub const NODE_SIZE: usize = 2;

// A node's words. A builder keeps a node that is still to be built in the same two.
#[derive(Clone, Copy, Debug, Default, PartialEq, Eq)]
pub struct NodeWords {
    pub bitmap: u32,
    pub offset: u32,
}

// The whole nodes lent.
pub fn node_count(nodes: &[u32]) -> usize
    ensures { result ≡ node_count nodes.now }
{
    nodes.len() / NODE_SIZE
}

// The place of a node's first word.
fn start_of(at: Node) -> usize
    requires { (0 < at.0) × (at.0 ≤ 2 ^ 62) }
    ensures { result ≡ node_start at.0 }
{
    (at.0 - 1) * NODE_SIZE
}

// The bitmap of a node that is lent whole. This and the next are for a lookup, which has tested the number itself just before: a
// second test at each node cost up to 8 % at stride 1.
pub fn bitmap_of(nodes: &[u32], at: Node) -> u32
    requires { Lent nodes.now at.0 }
    ensures { result ≡ bitmap_of nodes.now at.0 }
{
    nodes[start_of(at)]
}

// The next unused node number at a node that is lent whole, by its offset: the number of its first child, where it has one.
pub fn next_of(nodes: &[u32], at: Node) -> Node
    requires { Lent nodes.now at.0 }
    ensures { (result.0 ≡ next_of nodes.now at.0) × (result.0 < 2 ^ 62) }
{
    at.plus(Distance(wide(nodes[start_of(at) + 1])))
}

// Whether a node is lent whole.
fn is_node(nodes: &[u32], at: Node) -> bool
    ensures { MatchBool result (Lent nodes.now at.0) (is_node nodes.now at.0 ≡ false) }
{
    (0 < at.0) & (at.0 <= node_count(nodes))
}

// The words of a node; zeros where it is not lent whole.
pub fn node_at(nodes: &[u32], at: Node) -> NodeWords
    ensures { result ≡ node_at nodes.now at.0 }
{
    if is_node(nodes, at) {
        let start = start_of(at);
        NodeWords {
            bitmap: nodes[start],
            offset: nodes[start + 1],
        }
    } else {
        NodeWords::default()
    }
}

// Stores the words of a node, where it is lent whole; no other word changes.
pub fn store_node(nodes: &mut [u32], at: Node, x: NodeWords)
    ensures { nodes.new ≡ store_node nodes.old at.0 (words_of_node x) }
{
    if is_node(nodes, at) {
        let start = start_of(at);
        nodes[start] = x.bitmap;
        nodes[start + 1] = x.offset;
    }
}

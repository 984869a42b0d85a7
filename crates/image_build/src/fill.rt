// The builder's loop: the nodes lent are the queue of the nodes still to do.
ghost use Rattle.std.specs.Prelude.{◌≡◌, [], ◌∷◌, ℕ, ◌+◌, ◌-◌, ◌*◌, ◌/◌, ◌^◌, ◌<◌, ◌≤◌, length};
ghost use Rattle.std.proofs.lemmas.List.Edits.{sets};
ghost use Rattle.promise.specs.Over.{over};
ghost use Rattle.routes.specs.Routes.{route_at};
ghost use Rattle.lists.specs.Flat.{flat};
ghost use Rattle.image_rules.specs.Node.{node_words, offset, node_start, store_nodes};
ghost use Rattle.image_rules.specs.Breadth.{slot_children, slot_ports, bitmap, children, leaf_ports, levels, tree_words, tree_ports};
ghost use Rattle.image_rules.specs.Image.{image_nodes, image_ports, routes_of};
ghost use Rattle.image_nodes.specs.Needs.{Lent};
ghost use Rattle.image_stretch.specs.Stretches.{half_word, slot_in, stretch_slots, root_of};
ghost use Rattle.image_stretch.specs.Memory.{in_halves, pending, pending_at, free, filled, filled_by, filled_leaves, owed, kept_after, build_node};
ghost use Rattle.image_stretch.specs.Needs.{Fits, Buildable, Queue};
ghost use Rattle.image_build.specs.Needs.{most_slots, ImageRoom};

use entries::fill;
use image_nodes::{NodeWords, node_at, store_node};
use image_numbers::{Distance, Leaf, Node};
use image_search::{Slots, address_of, goes_on, leaf_port};
use image_stretch::{Filled, Free, HALF_WORD, Stretch};

// Two numbers in one word.
fn halves(high: u32, low: u32) -> u32
    requires { (high < half_word) × (low < half_word) }
    ensures { result ≡ in_halves high low }
{
    high * HALF_WORD + low
}

// Stores a node still to do in the two words of its node. Any depth that half a word holds has room.
fn store_pending(nodes: &mut [u32], at: Node, x: Stretch)
    requires { Fits x × (x.depth < half_word) × Lent nodes.old at.0 }
    ensures { nodes.new ≡ store_nodes nodes.old at.0 (pending x) }
{
    let words = NodeWords {
        bitmap: halves(x.lo as u32, x.hi as u32),
        offset: halves(x.depth, x.best),
    };
    store_node(nodes, at, words);
}

// A node still to do, from the words of its node.
fn pending_at(nodes: &[u32], at: Node) -> Stretch
    requires { Lent nodes.now at.0 }
    ensures { result ≡ pending_at nodes.now at.0 }
{
    let x = node_at(nodes, at);
    Stretch {
        lo: (x.bitmap / HALF_WORD) as usize,
        hi: (x.bitmap % HALF_WORD) as usize,
        depth: x.offset / HALF_WORD,
        best: x.offset % HALF_WORD,
    }
}

// Stores a node's words, where `next` was the first node that was not in use when its slots were filled; what is now not in use.
fn put_node(nodes: &mut [u32], at: Node, next: Node, f: Filled) -> Free
    requires { Lent nodes.old at.0 × (next.0 ≤ 2 ^ 32) }
    ensures { (result ≡ free f.node.0 f.leaf.0)
        × (nodes.new ≡ store_nodes nodes.old at.0 (node_words f.bitmap (offset next.0 at.0))) }
{
    let words = NodeWords {
        bitmap: f.bitmap,
        offset: at.to(next).0 as u32,
    };
    store_node(nodes, at, words);
    Free {
        node: f.node,
        leaf: f.leaf,
    }
}

// One slot: a leaf's port, after those that are still owed; or a node still to do.
fn fill_slot(
    list: &[u32],
    y: Stretch,
    nodes: &mut [u32],
    ports: &mut [u16],
    kept: usize,
    best: u32,
    st: Filled,
) -> Filled
    requires { (kept ≤ st.leaf.0) × (best < half_word) × Fits y × (y.depth < half_word) × (st.bitmap < 2 ^ 31) × (0 < st.node.0)
        × (node_start (st.node.0 + length (slot_children (slot_in (route_at list.now) y))) ≤ length nodes.old)
        × (st.leaf.0 + length (slot_ports (slot_in (route_at list.now) y)) ≤ length ports.old) }
    ensures { (result ≡ filled_by (slot_in (route_at list.now) y) st)
        × (nodes.new ≡ store_nodes nodes.old st.node.0 (flat pending (slot_children (slot_in (route_at list.now) y))))
        × ((k : ℕ) → k ≡ kept_after kept st.leaf.0 result.leaf.0 → owed ports.new k result.leaf.0 best ≡ sets (owed ports.old kept st.leaf.0 best) st.leaf.0 (slot_ports (slot_in (route_at list.now) y))) }
{
    if goes_on(list, y) {
        store_pending(nodes, st.node, y);
        return Filled {
            bitmap: st.bitmap * 2,
            node: st.node.plus(Distance(1)),
            ..st
        };
    }
    fill(ports, kept, st.leaf.0, best as u16);
    ports[st.leaf.0] = leaf_port(list, y) as u16;
    Filled {
        bitmap: st.bitmap * 2 + 1,
        leaf: st.leaf.after(1),
        ..st
    }
}

// Some slots at once that are leaves; their ports are stored later.
fn skip_leaves(count: u32, st: Filled) -> Filled
    requires { (count ≤ most_slots) × (st.bitmap < 2 ^ most_slots) × (st.leaf.0 + count < 2 ^ 64) }
    ensures { result ≡ filled_leaves count st }
{
    let bits = ((st.bitmap as u64 + 1) << count) - 1;
    Filled {
        bitmap: bits as u32,
        leaf: st.leaf.after(count as usize),
        ..st
    }
}

// Up to where the ports are stored after a slot: past its own, if it has one.
fn kept_after(kept: usize, before: Leaf, after: Leaf) -> usize
    ensures { result ≡ kept_after kept before.0 after.0 }
{
    if before == after { kept } else { after.0 }
}

// What an image is built of: the routes of a list, at a stride, and the slots that its nodes have.
#[derive(Clone, Copy)]
pub(crate) struct Source<'a> {
    pub list: &'a [u32],
    pub stride: u32,
    pub slots: u32,
}

impl Source<'_> {
    // All slots of a node. The search for a slot's stretch resumes where that of the slot before ended. Leaves with the node's port are
    // only counted, and their ports stored together: the ports of a node's leaves stand side by side.
    fn fill_node(self, x: Stretch, nodes: &mut [u32], ports: &mut [u16], at: Free) -> Filled
        requires { (self.slots ≤ most_slots) × Buildable 32 (route_at self.list.now) self.stride self.slots x × (0 < at.node.0)
            × (node_start (at.node.0 + length (flat slot_children (stretch_slots 32 (route_at self.list.now) self.stride self.slots x))) ≤ length nodes.old)
            × (at.leaf.0 + length (flat slot_ports (stretch_slots 32 (route_at self.list.now) self.stride self.slots x)) ≤ length ports.old) }
        ensures { (result ≡ filled (bitmap (stretch_slots 32 (route_at self.entry.list.now) self.entry.stride self.entry.slots x))
            (at.node.0 + length (flat slot_children (stretch_slots 32 (route_at self.entry.list.now) self.entry.stride self.entry.slots x)))
            (at.leaf.0 + length (flat slot_ports (stretch_slots 32 (route_at self.entry.list.now) self.entry.stride self.entry.slots x))))
            × (nodes.new ≡ store_nodes nodes.old at.node.0 (flat pending (flat slot_children (stretch_slots 32 (route_at self.entry.list.now) self.entry.stride self.entry.slots x))))
            × (ports.new ≡ sets ports.old at.leaf.0 (flat slot_ports (stretch_slots 32 (route_at self.entry.list.now) self.entry.stride self.entry.slots x))) }
    {
        let address = address_of(self.list, x);
        let depth = x.depth + self.stride;
        let node = Slots {
            list: self.list,
            x,
            address,
            depth,
            slots: self.slots,
        };
        let mut j = 0;
        let mut search = node.search_from(x.lo);
        let mut kept = at.leaf.0;
        let mut st = Filled {
            bitmap: 0,
            node: at.node,
            leaf: at.leaf,
        };
        while j < self.slots {
            if j < search.clear {
                st = skip_leaves(search.clear - j, st);
                j = search.clear;
                continue;
            }
            let y = node.find_slot(search, j);
            let before = st.leaf;
            st = fill_slot(self.list, y, nodes, ports, kept, x.best, st);
            kept = kept_after(kept, before, st.leaf);
            search = node.search_after(search.short, y);
            j += 1;
        }
        fill(ports, kept, st.leaf.0, x.best as u16);
        st
    }

    // One node: its children are put from the first node on that is not in use, and its words over its own.
    fn build_node(self, nodes: &mut [u32], ports: &mut [u16], at: Node, st: Free) -> Free
        requires { (self.slots ≤ most_slots) × (0 < at.0) × (at.0 < st.node.0) × (st.node.0 ≤ 2 ^ 32)
            × Buildable 32 (route_at self.list.now) self.stride self.slots (pending_at nodes.old at.0)
            × (node_start (st.node.0 + length (children (stretch_slots 32 (route_at self.list.now) self.stride self.slots) (pending_at nodes.old at.0))) ≤ length nodes.old)
            × (st.leaf.0 + length (leaf_ports (stretch_slots 32 (route_at self.list.now) self.stride self.slots) (pending_at nodes.old at.0)) ≤ length ports.old) }
        ensures { (result ≡ free (st.node.0 + length (children (stretch_slots 32 (route_at self.entry.list.now) self.entry.stride self.entry.slots) (pending_at nodes.old at.0)))
            (st.leaf.0 + length (leaf_ports (stretch_slots 32 (route_at self.entry.list.now) self.entry.stride self.entry.slots) (pending_at nodes.old at.0))))
            × (nodes.new ≡ build_node (stretch_slots 32 (route_at self.entry.list.now) self.entry.stride self.entry.slots) nodes.old at.0 st.node.0 (pending_at nodes.old at.0))
            × (ports.new ≡ sets ports.old st.leaf.0 (leaf_ports (stretch_slots 32 (route_at self.entry.list.now) self.entry.stride self.entry.slots) (pending_at nodes.old at.0))) }
    {
        let x = pending_at(nodes, at);
        let f = self.fill_node(x, nodes, ports, st);
        put_node(nodes, at, st.node, f)
    }

    // All nodes, one after the other; the root is there already.
    fn build_nodes(self, n: usize, nodes: &mut [u32], ports: &mut [u16])
        requires { (self.slots ≤ most_slots) × (nodes.old ≡ store_nodes nodes.old 1 (pending (root_of n)))
            × Queue 32 (route_at self.list.now) self.stride self.slots n (stretch_slots 32 (route_at self.list.now) self.stride self.slots) (levels (stretch_slots 32 (route_at self.list.now) self.stride self.slots) (32 / self.stride) (root_of n ∷ [])) nodes.old ports.old }
        ensures { (nodes.new ≡ over (tree_words (stretch_slots 32 (route_at self.entry.list.now) self.entry.stride self.entry.slots) (levels (stretch_slots 32 (route_at self.entry.list.now) self.entry.stride self.entry.slots) (32 / self.entry.stride) (root_of n ∷ []))) nodes.old)
            × (ports.new ≡ over (tree_ports (stretch_slots 32 (route_at self.entry.list.now) self.entry.stride self.entry.slots) (levels (stretch_slots 32 (route_at self.entry.list.now) self.entry.stride self.entry.slots) (32 / self.entry.stride) (root_of n ∷ []))) ports.old) }
    {
        let mut at = Node::ROOT;
        let mut st = Free {
            node: Node(2),
            leaf: Leaf(0),
        };
        while at.0 < st.node.0 {
            st = self.build_node(nodes, ports, at, st);
            at = at.plus(Distance(1));
        }
    }

    // The image of the first n routes, where there is room for it.
    pub(crate) fn write_image(self, n: usize, nodes: &mut [u32], ports: &mut [u16])
        requires { ImageRoom 32 self.list.now n self.stride self.slots nodes.old ports.old }
        ensures { (nodes.new ≡ over (image_nodes self.entry.stride (32 / self.entry.stride) (routes_of 32 (route_at self.entry.list.now) n)) nodes.old)
            × (ports.new ≡ over (image_ports self.entry.stride (32 / self.entry.stride) (routes_of 32 (route_at self.entry.list.now) n)) ports.old) }
    {
        store_pending(
            nodes,
            Node::ROOT,
            Stretch {
                lo: 0,
                hi: n,
                depth: 0,
                best: 0,
            },
        );
        self.build_nodes(n, nodes, ports);
    }
}

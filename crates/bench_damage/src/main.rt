// Images damaged in each way that a lookup refuses, and just short of it. A line is `claim`, number, port, nodes read.
#![tactic(auto)]

use image_lookup::lookup;
use refusals::found::{Found, Lost, Reached};
use std::io;

// The nodes and the ports of example 9: "bitmaps 0,1,2,3,1,3", and "offsets become 1,2,2,2,1,1".
fn nodes_9() -> [u32; 12] {
    [0, 1, 1, 2, 2, 2, 3, 2, 1, 1, 3, 1]
}

fn ports_9() -> [u16; 7] {
    [1, 2, 3, 4, 5, 6, 7]
}

fn found(rt: &impl Print, claim: &str, x: Result<Reached, Lost>) -> io::Result<()> {
    let Found {
        number,
        port,
        reads,
    } = Found::from(x);
    println!(rt; "{claim} {number} {port} {reads}")
}

// Example 9, looked up at 0101 with one word changed, or with the first port changed.
fn word_damaged(rt: &impl Print, claim: &str, at: usize, value: u32) -> io::Result<()> {
    let mut nodes = nodes_9();
    if let Some(word) = nodes.get_mut(at) {
        *word = value;
    }
    found(rt, claim, lookup(1, &nodes, &ports_9(), 1342177280))
}

fn port_damaged(rt: &impl Print, claim: &str, value: u16) -> io::Result<()> {
    let mut ports = ports_9();
    ports[0] = value;
    found(rt, claim, lookup(1, &nodes_9(), &ports, 1342177280))
}

fn damages(rt: &impl Print) -> io::Result<()> {
    word_damaged(rt, "nothing_damaged", 12, 0)?;
    word_damaged(rt, "a_bitmap_of_4_is_refused_11", 2, 4)?;
    port_damaged(rt, "port_4095_is_refused_11", 4095)?;
    port_damaged(rt, "port_4094_is_answered", 4094)
}

// The offsets of nodes 1 and 2 where the leaf base is least, and where there is none.
fn offsets_of_node_1(rt: &impl Print) -> io::Result<()> {
    word_damaged(rt, "offset_0_at_node_1_is_refused_11", 1, 0)?;
    word_damaged(rt, "leaf_base_minus_1_at_node_1_is_refused_11", 1, 2)
}

fn offsets_of_node_2(rt: &impl Print) -> io::Result<()> {
    word_damaged(rt, "offset_0_at_node_2_has_leaf_base_2", 3, 0)?;
    word_damaged(rt, "offset_1_at_node_2_has_leaf_base_1", 3, 1)?;
    word_damaged(rt, "leaf_base_minus_1_at_node_2_is_refused_11", 3, 3)?;
    word_damaged(rt, "the_largest_offset_is_refused_11", 3, 4294967295)
}

fn too_little(rt: &impl Print) -> io::Result<()> {
    found(rt, "no_nodes_are_refused_11", lookup(1, &[], &[], 0))?;
    found(rt, "half_a_node_is_none", lookup(1, &[3], &[5], 0))?;
    found(
        rt,
        "a_node_past_those_lent_is_refused_11",
        lookup(1, &[0, 1, 3], &[5, 5], 0),
    )?;
    found(
        rt,
        "a_leaf_past_the_ports_is_refused_11",
        lookup(1, &[3, 1], &[5], 4294967295),
    )
}

// Node 2 made its own first child, so that the walk goes on to the last depth.
fn too_deep(rt: &impl Print) -> io::Result<()> {
    found(
        rt,
        "a_non_leaf_at_depth_31_is_refused_11",
        lookup(1, &[0, 1, 0, 0], &[], 0),
    )?;
    found(
        rt,
        "a_non_leaf_at_depth_28_is_refused_11",
        lookup(4, &[0, 1, 0, 0], &[], 0),
    )?;
    found(
        rt,
        "stride_3_is_refused_12",
        lookup(3, &[0, 1, 0, 0], &[], 0),
    )
}

// Example 9 with the leaf bases of before in a third word: read as two words a node, which no rule refuses, it answers wrongly.
fn three_words(rt: &impl Print) -> io::Result<()> {
    let nodes = [0, 1, 0, 1, 2, 0, 2, 2, 1, 3, 0, 2, 1, 1, 4, 3, 0, 5];
    found(
        rt,
        "three_words_a_node_are_read_as_two",
        lookup(1, &nodes, &ports_9(), 1342177280),
    )
}

fn main(rt: HostRuntime) -> io::Result<()> {
    damages(&rt)?;
    offsets_of_node_1(&rt)?;
    offsets_of_node_2(&rt)?;
    too_little(&rt)?;
    too_deep(&rt)?;
    three_words(&rt)
}

// Many lookups in one call, in example 9's image and in segment tables that are nearly empty, whole and damaged. A line is `claim`, number,
// place, 1 if some element is 65535, and then every element lent; each held 77 before.
#![tactic(auto)]

use image_lookup::many::lookup_many;
use refusals::{Answer, Refusal};
use std::io;

// The nodes and the ports of example 9, of the routes 01, 10, 000, 001, 111, 1100, 1101 to ports 1..7.
fn nodes_9() -> [u32; 12] {
    [0, 1, 1, 2, 2, 2, 3, 2, 1, 1, 3, 1]
}

fn ports_9() -> [u16; 7] {
    [1, 2, 3, 4, 5, 6, 7]
}

// 01, 10, 1101 and 01 again, each going on with zeros.
fn addresses() -> [u32; 4] {
    [1073741824, 2147483648, 3489660928, 1073741824]
}

fn left(rt: &impl Print, claim: &str, x: Result<u32, Refusal>, out: &[u16]) -> io::Result<()> {
    let Answer {
        number,
        place,
        count,
    } = Answer::from(x);
    print!(rt; "{claim} {number} {place} {count}")?;
    for element in out {
        print!(rt; " {element}")?;
    }
    println!(rt)
}

// The four addresses in example 9, with five elements lent.
fn looked(rt: &impl Print, claim: &str, stride: u32, nodes: &[u32]) -> io::Result<()> {
    let mut out = [77u16; 5];
    let x = lookup_many(stride, nodes, &ports_9(), &addresses(), &mut out);
    left(rt, claim, x, &out)
}

// Node 2 is that of the addresses 01, and no bitmap of stride 1 is 4.
fn damaged(rt: &impl Print) -> io::Result<()> {
    let mut nodes = nodes_9();
    nodes[2] = 4;
    looked(rt, "what_is_refused_11_is_65535_and_no_more", 1, &nodes)
}

fn without_addresses(rt: &impl Print) -> io::Result<()> {
    let mut out = [77u16; 1];
    let x = lookup_many(1, &nodes_9(), &ports_9(), &[], &mut out);
    left(rt, "no_addresses_leave_all_as_it_is", x, &out)
}

fn without_room(rt: &impl Print, claim: &str, stride: u32) -> io::Result<()> {
    let mut out = [77u16; 3];
    let x = lookup_many(stride, &nodes_9(), &ports_9(), &addresses(), &mut out);
    left(rt, claim, x, &out)
}

// Addresses 0.1.0.0, 0.2.0.0, 0.0.0.0 in segment tables without a segment, by their first table.
fn looked_in_segments(
    rt: &impl Print,
    claim: &str,
    first: &[u16],
    out: &mut [u16],
) -> io::Result<()> {
    let x = segment_lookup::many::lookup_many(first, &[], &[], &[], &[65536, 131072, 0], out);
    left(rt, claim, x, out)
}

// 0.1 goes to port 5; the entry of 0.2 is a port above 4094.
fn in_segments(rt: &impl Print) -> io::Result<()> {
    let mut first = [0u16; 65536];
    first[1] = 5;
    first[2] = 4095;
    let mut out = [77u16; 4];
    looked_in_segments(
        rt,
        "a_port_of_4095_in_segment_tables_is_65535",
        &first,
        &mut out,
    )?;
    let mut short = [77u16; 2];
    looked_in_segments(
        rt,
        "one_short_in_segment_tables_is_refused_9",
        &first,
        &mut short,
    )
}

fn in_short_segments(rt: &impl Print) -> io::Result<()> {
    let mut out = [77u16; 3];
    looked_in_segments(
        rt,
        "in_65535_first_entries_all_is_65535",
        &[0u16; 65535],
        &mut out,
    )
}

fn main(rt: HostRuntime) -> io::Result<()> {
    looked(
        &rt,
        "each_address_has_its_port_and_the_rest_stays",
        1,
        &nodes_9(),
    )?;
    damaged(&rt)?;
    without_addresses(&rt)?;
    without_room(&rt, "one_short_is_refused_9", 1)?;
    without_room(&rt, "stride_3_is_refused_12_before_9", 3)?;
    in_segments(&rt)?;
    in_short_segments(&rt)
}

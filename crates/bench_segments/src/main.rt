// The segment tables of 68 routes, built and looked up in, and builds and lookups that are refused. A build's line is `claim`, number,
// place, packed segments, plain segments, last blocks; a lookup's is `claim`, number, port, words read; an entry's is `claim` and the
// entry; that of a segment's entries is `claim`, where they begin in their store, how many.
#![tactic(auto)]

use refusals::found::{Found, Lost, Reached};
use routes::{Route, store_route};
use segment_build::build;
use segment_entries::part_of;
use segment_lookup::lookup;
use segment_rules::{Built, Part};
use std::io;

fn built(
    rt: &impl Print,
    claim: &str,
    list: &[u32],
    first: &mut [u16],
    packed: &mut [u16],
    plain: &mut [u16],
    last: &mut [u16],
) -> io::Result<()> {
    let Built {
        number,
        place,
        packed,
        plain,
        last,
    } = Built::from(build(list, first, packed, plain, last));
    println!(rt; "{claim} {number} {place} {packed} {plain} {last}")
}

fn found(rt: &impl Print, claim: &str, x: Result<Reached, Lost>) -> io::Result<()> {
    let Found {
        number,
        port,
        reads,
    } = Found::from(x);
    println!(rt; "{claim} {number} {port} {reads}")
}

fn entry(rt: &impl Print, claim: &str, store: &[u16], at: usize) -> io::Result<()> {
    print!(rt; "{claim}")?;
    if let Some(x) = store.get(at) {
        print!(rt; " {x}")?;
    }
    println!(rt)
}

fn part(rt: &impl Print, claim: &str, packed: &[u16], plain: &[u16], entry: u32) -> io::Result<()> {
    let Part { from, count, .. } = part_of(packed.len(), plain.len(), entry);
    println!(rt; "{claim} {from} {count}")
}

fn route(value: u32, len: u32, port: u32) -> Route {
    Route { value, len, port }
}

// Route k of those of 10.0, whose third octets are 0, 2 and so on to 62, and of those of 10.1, where they are 1, 3 and so on to 63.
fn store_two(list: &mut [u32], k: usize) {
    let number = k % 32;
    let apart = (number * 512) as u32;
    store_route(list, number + 2, route(167772160 + apart, 24, 5));
    store_route(list, number + 34, route(167837952 + apart, 24, 6));
}

fn store_apart(list: &mut [u32]) {
    for k in 0..32 {
        store_two(list, k);
    }
}

// 9.0.0.0/16 and 9.0.0.0/17, both to port 9: one port in the whole segment, and yet a segment. In that of 10.0 the 32 routes and what is
// between them have 64 ones, in that of 10.1 there is one more before the first route. 10.2.0.0/16 to port 7, 10.3.1.0/25 to port 8.
fn store_routes(list: &mut [u32]) {
    store_route(list, 0, route(150994944, 16, 9));
    store_route(list, 1, route(150994944, 17, 9));
    store_apart(list);
    store_route(list, 66, route(167903232, 16, 7));
    store_route(list, 67, route(167969024, 25, 8));
}

// Each store one word short of three packed segments, a plain one and a last block.
fn short_first(rt: &impl Print, list: &[u32]) -> io::Result<()> {
    let mut first = [0u16; 65535];
    let mut packed = [0u16; 288];
    let mut plain = [0u16; 256];
    let mut last = [0u16; 256];
    built(
        rt,
        "65535_first_entries_are_refused_9",
        list,
        &mut first,
        &mut packed,
        &mut plain,
        &mut last,
    )
}

fn short_packed(rt: &impl Print, list: &[u32]) -> io::Result<()> {
    let mut first = [0u16; 65536];
    let mut packed = [0u16; 287];
    let mut plain = [0u16; 256];
    let mut last = [0u16; 256];
    built(
        rt,
        "287_packed_words_are_refused_9",
        list,
        &mut first,
        &mut packed,
        &mut plain,
        &mut last,
    )
}

fn short_plain(rt: &impl Print, list: &[u32]) -> io::Result<()> {
    let mut first = [0u16; 65536];
    let mut packed = [0u16; 288];
    let mut plain = [0u16; 255];
    let mut last = [0u16; 256];
    built(
        rt,
        "255_plain_words_are_refused_9",
        list,
        &mut first,
        &mut packed,
        &mut plain,
        &mut last,
    )
}

fn short_last(rt: &impl Print, list: &[u32]) -> io::Result<()> {
    let mut first = [77u16; 65536];
    let mut packed = [0u16; 288];
    let mut plain = [0u16; 256];
    let mut last = [0u16; 255];
    built(
        rt,
        "255_last_words_are_refused_9",
        list,
        &mut first,
        &mut packed,
        &mut plain,
        &mut last,
    )?;
    entry(rt, "no_entry_is_written", &first, 2304)
}

fn entries_of(rt: &impl Print, first: &[u16], plain: &[u16]) -> io::Result<()> {
    entry(
        rt,
        "a_longer_route_of_the_same_port_makes_a_pointer",
        first,
        2304,
    )?;
    entry(rt, "64_ones_are_packed", first, 2560)?;
    entry(rt, "65_ones_are_plain", first, 2561)?;
    entry(rt, "a_route_of_16_bits_makes_no_pointer", first, 2562)?;
    entry(rt, "a_route_of_24_bits_makes_no_pointer", plain, 1)
}

fn addresses(
    rt: &impl Print,
    first: &[u16],
    packed: &[u16],
    plain: &[u16],
    last: &[u16],
) -> io::Result<()> {
    found(
        rt,
        "a_port_takes_1_read",
        lookup(first, packed, plain, last, 167903233),
    )?;
    found(
        rt,
        "a_plain_segment_takes_2_reads",
        lookup(first, packed, plain, last, 167853825),
    )?;
    found(
        rt,
        "a_packed_segment_takes_3_reads",
        lookup(first, packed, plain, last, 167788033),
    )?;
    found(
        rt,
        "a_last_block_takes_1_more",
        lookup(first, packed, plain, last, 167969151),
    )
}

fn parts(rt: &impl Print, packed: &[u16], plain: &[u16]) -> io::Result<()> {
    part(rt, "the_entries_of_a_packed_segment", packed, plain, 32769)?;
    part(rt, "the_entries_of_a_plain_segment", packed, plain, 49152)?;
    part(rt, "a_port_names_no_entries", packed, plain, 7)
}

fn tables(
    rt: &impl Print,
    list: &[u32],
    first: &mut [u16],
    packed: &mut [u16],
    plain: &mut [u16],
    last: &mut [u16],
) -> io::Result<()> {
    built(rt, "the_tables_are_built", list, first, packed, plain, last)?;
    entries_of(rt, first, plain)?;
    addresses(rt, first, packed, plain, last)?;
    parts(rt, packed, plain)
}

fn whole(rt: &impl Print, list: &[u32]) -> io::Result<()> {
    let mut first = [0u16; 65536];
    let mut packed = [0u16; 288];
    let mut plain = [0u16; 256];
    let mut last = [0u16; 256];
    tables(rt, list, &mut first, &mut packed, &mut plain, &mut last)
}

// The index of an entry in a packed block of zeros is -1.
fn damages(rt: &impl Print) -> io::Result<()> {
    let first = [32768u16; 65536];
    let packed = [0u16; 96];
    found(
        rt,
        "a_codeword_of_0_is_refused_11",
        lookup(&first, &packed, &[], &[], 0),
    )?;
    found(
        rt,
        "65535_first_entries_are_refused_11",
        lookup(&[0u16; 65535], &packed, &[], &[], 0),
    )
}

fn main(rt: HostRuntime) -> io::Result<()> {
    let mut list = [0u32; 204];
    store_routes(&mut list);
    whole(&rt, &list)?;
    short_first(&rt, &list)?;
    short_packed(&rt, &list)?;
    short_plain(&rt, &list)?;
    short_last(&rt, &list)?;
    damages(&rt)
}

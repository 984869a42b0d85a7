// Counts made afresh and kept in step, of a table with room for four routes. A line is `claim`, number, place and n, which is 0 where
// counts are made; then the counts of ports 0, 7 and 9, and the element after the counts where it is lent: it is 5 before the first call.
#![tactic(auto)]

use count_make::make;
use count_update::{announce, apply, withdraw};
use prefix::Prefix;
use refusals::Answer;
use routes::Route;
use std::io;

fn elements(rt: &impl Print, counts: &[u64]) -> io::Result<()> {
    for i in [0usize, 7, 9, 4095] {
        if let Some(x) = counts.get(i) {
            print!(rt; " {x}")?;
        }
    }
    println!(rt)
}

fn show(rt: &impl Print, claim: &str, answer: Answer, counts: &[u64]) -> io::Result<()> {
    let Answer {
        number,
        place,
        count,
    } = answer;
    print!(rt; "{claim} {number} {place} {count}")?;
    elements(rt, counts)
}

fn made(rt: &impl Print, claim: &str, rows: &[u32], n: u32, counts: &mut [u64]) -> io::Result<()> {
    let answer = Answer::from(make(rows, n, counts));
    show(rt, claim, answer, counts)
}

fn put(
    rt: &impl Print,
    claim: &str,
    rows: &mut [u32],
    n: u32,
    value: u32,
    len: u32,
    port: u32,
    counts: &mut [u64],
) -> io::Result<()> {
    let answer = Answer::updated(n, announce(rows, n, Route { value, len, port }, counts));
    show(rt, claim, answer, counts)
}

fn take(
    rt: &impl Print,
    claim: &str,
    rows: &mut [u32],
    n: u32,
    counts: &mut [u64],
) -> io::Result<()> {
    let answer = Answer::updated(n, withdraw(rows, n, Prefix::WHOLE, counts));
    show(rt, claim, answer, counts)
}

// 255.255.255.255/32 withdrawn, and the whole space announced to port 9.
fn send(
    rt: &impl Print,
    claim: &str,
    rows: &mut [u32],
    n: u32,
    counts: &mut [u64],
) -> io::Result<()> {
    let bytes =
        b"\xFF\xFF\xFF\xFF\xFF\xFF\xFF\xFF\xFF\xFF\xFF\xFF\xFF\xFF\xFF\xFF\x00\x1D\x02\x00\x05\x20\xFF\xFF\xFF\xFF\x00\x00\x00";
    let answer = Answer::updated(n, apply(bytes, 9, rows, n, counts));
    show(rt, claim, answer, counts)
}

// The whole space, then 10.0.0.0/31 and 10.0.0.0/32.
fn nested(rt: &impl Print, rows: &mut [u32], counts: &mut [u64]) -> io::Result<()> {
    put(rt, "the_whole_space_goes_to_7", rows, 0, 0, 0, 7, counts)?;
    put(rt, "and_to_7_again", rows, 1, 0, 0, 7, counts)?;
    put(rt, "a_31_takes_two", rows, 1, 167772160, 31, 9, counts)?;
    put(
        rt,
        "a_32_inside_it_takes_one",
        rows,
        2,
        167772160,
        32,
        7,
        counts,
    )
}

fn refused(rt: &impl Print, claim: &str, rows: &mut [u32], counts: &mut [u64]) -> io::Result<()> {
    put(rt, claim, rows, 3, 0, 0, 9, counts)?;
    take(rt, claim, rows, 3, counts)?;
    send(rt, claim, rows, 3, counts)
}

fn main(rt: HostRuntime) -> io::Result<()> {
    let mut rows = [0u32; 20];
    let mut counts = [5u64; 4096];
    made(&rt, "without_routes_port_0_has_all", &rows, 0, &mut counts)?;
    nested(&rt, &mut rows, &mut counts)?;
    put(
        &rt,
        "the_last_address_takes_one",
        &mut rows,
        3,
        4294967295,
        32,
        9,
        &mut counts,
    )?;
    send(
        &rt,
        "a_message_takes_all_but_one",
        &mut rows,
        4,
        &mut counts,
    )?;
    counts[9] = 4294967294;
    refused(&rt, "one_less_is_refused_11", &mut rows, &mut counts)?;
    made(&rt, "and_made_afresh", &rows, 3, &mut counts)?;
    refused(
        &rt,
        "4094_counts_are_refused_9",
        &mut rows,
        &mut [5u64; 4094],
    )
}

// The examples of the run listing in the rules, run, of a list and of a table: one line `claim value` each. "done" comes with the count of runs,
// "refused" with the number and the place; then come the words that were lent, 9 where nothing was written.
#![tactic(auto)]

use refusals::Refusal;
use runs_write::{list_runs, table_runs};
use std::io;

// "rows 0..9 hold 100110, 00, 10010, 01, 10011, 11, 1000, 101, 1110, 1111": value, length, port, left row, right row.
const TABLE_I: [u32; 50] = [
    2550136832, 6, 1, 1, 2, 0, 2, 2, 0, 3, 2415919104, 5, 3, 4, 5, 1073741824, 2, 4, 0, 0,
    2550136832, 5, 5, 6, 7, 3221225472, 2, 6, 0, 8, 2147483648, 4, 7, 0, 0, 2684354560, 3, 8, 0, 0,
    3758096384, 4, 9, 0, 9, 4026531840, 4, 10, 0, 0,
];

fn show(rt: &impl Print, answer: Result<u32, Refusal>) -> io::Result<()> {
    match answer {
        Ok(count) => print!(rt; " done {count}"),
        Err(r) => {
            let number = u32::from(r.fault);
            let place = r.place;
            print!(rt; " refused {number} {place}")
        }
    }
}

fn show_words(rt: &impl Print, words: &[u32]) -> io::Result<()> {
    for word in words {
        print!(rt; " {word}")?;
    }
    println!(rt)
}

// The runs of a list, where there is room for the words lent.
fn listing(rt: &impl Print, claim: &str, list: &[u32], runs: &mut [u32]) -> io::Result<()> {
    rt.print(claim)?;
    show(rt, list_runs(list, runs))?;
    show_words(rt, runs)
}

// Where there is room for four runs.
fn four(rt: &impl Print, claim: &str, list: &[u32]) -> io::Result<()> {
    let mut runs = [9u32; 12];
    listing(rt, claim, list, &mut runs)
}

// Where there is room for six runs, and no word more; for six and two words; for seven.
fn seven(rt: &impl Print, list: &[u32]) -> io::Result<()> {
    let mut six = [9u32; 18];
    let mut twenty = [9u32; 20];
    let mut runs = [9u32; 21];
    listing(rt, "the_example_has_seven_runs", list, &mut runs)?;
    listing(rt, "room_for_six_runs_is_refused_9", list, &mut six)?;
    listing(rt, "room_for_twenty_words_is_refused_9", list, &mut twenty)
}

// 10.0.0.0/9 and 10.128.0.0/9; 10.0.0.0/8 and what is in it.
fn neighbours(rt: &impl Print) -> io::Result<()> {
    four(
        rt,
        "example_12_has_three_runs",
        &[167772160, 9, 7, 176160768, 9, 7],
    )?;
    four(
        rt,
        "neighbours_with_two_ports_stay_apart",
        &[167772160, 9, 7, 176160768, 9, 8],
    )?;
    four(
        rt,
        "a_route_inside_with_one_port_joins",
        &[167772160, 8, 7, 167837696, 16, 7],
    )?;
    four(
        rt,
        "five_runs_for_four_are_refused_9",
        &[167772160, 16, 7, 167903232, 16, 7],
    )
}

// Routes that begin or end at one address.
fn nested(rt: &impl Print) -> io::Result<()> {
    four(
        rt,
        "two_begin_at_one_address",
        &[167772160, 8, 7, 167772160, 16, 8],
    )?;
    four(
        rt,
        "two_end_at_one_address",
        &[167772160, 8, 7, 184483840, 16, 8],
    )?;
    four(
        rt,
        "three_begin_at_one_address",
        &[0, 0, 1, 0, 1, 2, 0, 2, 3],
    )?;
    four(
        rt,
        "three_end_at_one_address",
        &[0, 0, 1, 2147483648, 1, 2, 3221225472, 2, 3],
    )
}

// The whole space, and single addresses at both of its ends.
fn ends(rt: &impl Print) -> io::Result<()> {
    let none: [u32; 0] = [];
    four(rt, "the_empty_list_has_one_run", &none)?;
    four(rt, "the_whole_space_is_one_run", &[0, 0, 4094])?;
    four(
        rt,
        "single_addresses_at_both_ends",
        &[0, 32, 2, 4294967295, 32, 3],
    )?;
    four(
        rt,
        "single_addresses_in_the_whole_space",
        &[0, 0, 1, 0, 32, 2, 4294967295, 32, 3],
    )
}

fn refused(rt: &impl Print) -> io::Result<()> {
    four(rt, "two_words_are_refused_3", &[167772160, 8])?;
    four(
        rt,
        "a_length_of_33_is_refused_4",
        &[167772160, 8, 7, 167772161, 33, 7],
    )?;
    four(rt, "bits_past_the_length_are_refused_5", &[167772161, 8, 7])?;
    four(rt, "port_4095_is_refused_6", &[167772160, 8, 4095])?;
    four(
        rt,
        "equal_prefixes_are_refused_7",
        &[167772160, 8, 7, 167772160, 8, 9],
    )
}

// As many routes as there is room for, each a single odd address.
fn odd_addresses(list: &mut [u32]) {
    for (i, row) in list.chunks_exact_mut(3).enumerate() {
        row[0] = (i % 65536 * 2 + 1) as u32;
        row[1] = 32;
        row[2] = 1;
    }
}

fn count(rt: &impl Print, claim: &str, list: &[u32], runs: &mut [u32]) -> io::Result<()> {
    rt.print(claim)?;
    show(rt, list_runs(list, runs))?;
    println!(rt)
}

// 4,096 routes, no two of them neighbours.
fn most(rt: &impl Print) -> io::Result<()> {
    let mut list = [0u32; 12288];
    let mut runs = [0u32; 24579];
    let mut short = [0u32; 24578];
    odd_addresses(&mut list);
    count(rt, "4096_routes_have_8193_runs", &list, &mut runs)?;
    count(rt, "room_for_8192_runs_is_refused_9", &list, &mut short)
}

fn too_many(rt: &impl Print) -> io::Result<()> {
    let mut list = [0u32; 12291];
    let mut runs = [0u32; 3];
    odd_addresses(&mut list);
    count(rt, "4097_routes_are_refused_8", &list, &mut runs)
}

// The runs of a table of n routes, where there is room for the words lent.
fn table_listing(
    rt: &impl Print,
    claim: &str,
    rows: &[u32],
    n: u32,
    runs: &mut [u32],
) -> io::Result<()> {
    rt.print(claim)?;
    show(rt, table_runs(rows, n, runs))?;
    show_words(rt, runs)
}

// Where there is room for three runs.
fn three(rt: &impl Print, claim: &str, rows: &[u32], n: u32) -> io::Result<()> {
    let mut runs = [9u32; 9];
    table_listing(rt, claim, rows, n, &mut runs)
}

// Table I, where there is room for its ten runs; for a word less; and for a word more.
fn table_i(rt: &impl Print) -> io::Result<()> {
    let mut runs = [9u32; 30];
    let mut short = [9u32; 29];
    let mut long = [9u32; 31];
    table_listing(rt, "table_i_has_ten_runs", &TABLE_I, 10, &mut runs)?;
    table_listing(
        rt,
        "room_for_29_words_is_refused_9",
        &TABLE_I,
        10,
        &mut short,
    )?;
    table_listing(rt, "a_word_past_the_runs_stays", &TABLE_I, 10, &mut long)
}

// Example 12 as a table; 00 and 0, of which the longer is to be at the root; and tables not in good order. The last two have no
// room for Table I's runs either: 11 comes before 9.
fn tables(rt: &impl Print) -> io::Result<()> {
    let none: [u32; 0] = [];
    three(rt, "the_empty_table_has_one_run", &none, 0)?;
    three(
        rt,
        "example_12_as_a_table_has_three_runs",
        &[167772160, 9, 7, 1, 0, 176160768, 9, 7, 0, 0],
        2,
    )?;
    three(
        rt,
        "the_longer_at_the_root_is_in_good_order",
        &[0, 2, 2, 1, 0, 0, 1, 1, 0, 0],
        2,
    )?;
    three(
        rt,
        "the_shorter_at_the_root_is_refused_11",
        &[0, 1, 1, 1, 0, 0, 2, 2, 0, 0],
        2,
    )?;
    three(rt, "a_child_past_the_table_is_refused_11", &TABLE_I, 9)?;
    three(rt, "more_routes_than_rows_are_refused_11", &TABLE_I, 11)
}

fn main(rt: HostRuntime) -> io::Result<()> {
    neighbours(&rt)?;
    nested(&rt)?;
    ends(&rt)?;
    seven(&rt, &[167772160, 8, 7, 167837696, 16, 9, 167838208, 24, 7])?;
    refused(&rt)?;
    most(&rt)?;
    too_many(&rt)?;
    table_i(&rt)?;
    tables(&rt)
}

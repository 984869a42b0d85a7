// RULES, "Examples", 8, run: its table, built and then changed, with every row shown; the calls that
// are refused; a longer route below a shorter one that comes and goes; and one that the place of a withdrawn one is filled with.
#![tactic(auto)]

use prefix::Prefix;
use refusals::Answer;
use refusals::found::Found;
use routes::Route;
use std::io;
use table_lookup::lookup;
use table_update::{announce, build, withdraw};

// "rows 0..9 hold 100110, 00, 10010, 01, 10011, 11, 1000, 101, 1110, 1111": value, length, port, left row, right row; and two
// rows that are free.
const TABLE_I: [u32; 60] = [
    2550136832, 6, 1, 1, 2, 0, 2, 2, 0, 3, 2415919104, 5, 3, 4, 5, 1073741824, 2, 4, 0, 0,
    2550136832, 5, 5, 6, 7, 3221225472, 2, 6, 0, 8, 2147483648, 4, 7, 0, 0, 2684354560, 3, 8, 0, 0,
    3758096384, 4, 9, 0, 9, 4026531840, 4, 10, 0, 0, 7, 7, 7, 7, 7, 7, 7, 7, 7, 7,
];

// /0, 0 and 0110.
const NESTED: [u32; 9] = [0, 0, 1, 0, 1, 2, 1610612736, 4, 3];

// A line is `claim`, the number, the place and the routes that the call answers.
fn show(rt: &impl Print, claim: &str, answer: Answer) -> io::Result<()> {
    let Answer {
        number,
        place,
        count,
    } = answer;
    println!(rt; "{claim} {number} {place} {count}")
}

fn announced(
    rt: &impl Print,
    claim: &str,
    rows: &mut [u32],
    n: u32,
    value: u32,
    len: u32,
    port: u32,
) -> io::Result<()> {
    show(
        rt,
        claim,
        Answer::updated(n, announce(rows, n, Route { value, len, port })),
    )
}

fn withdrawn(
    rt: &impl Print,
    claim: &str,
    rows: &mut [u32],
    n: u32,
    value: u32,
    len: u32,
) -> io::Result<()> {
    show(
        rt,
        claim,
        Answer::updated(n, withdraw(rows, n, Prefix { value, len })),
    )
}

// A line of all the words: five for each row.
fn show_words(rt: &impl Print, words: &[u32]) -> io::Result<()> {
    for word in words {
        print!(rt; " {word}")?;
    }
    println!(rt)
}

fn show_port(rt: &impl Print, claim: &str, rows: &[u32], n: u32, address: u32) -> io::Result<()> {
    let Found {
        number,
        port,
        reads,
    } = Found::from(lookup(rows, n, address));
    println!(rt; "{claim} {number} {port} {reads}")
}

// "Withdraw 100110: row 0 holds 10010, row 2 10011, row 4 1000 with children (-,7); 1111 moves to row 6, row 8's right child is
// 6, row 9 is zeros."
fn example_8(rt: &impl Print) -> io::Result<()> {
    let mut rows = TABLE_I;
    withdrawn(rt, "100110_is_withdrawn", &mut rows, 10, 2550136832, 6)?;
    show_words(rt, &rows)?;
    announced(rt, "and_announced_again", &mut rows, 9, 2550136832, 6, 1)?;
    show_words(rt, &rows)?;
    announced(
        rt,
        "a_held_prefix_gets_the_new_port",
        &mut rows,
        10,
        2550136832,
        6,
        4094,
    )?;
    show_port(rt, "which_the_lookup_answers", &rows, 10, 2550136832)
}

fn refusals(rt: &impl Print) -> io::Result<()> {
    let mut rows = TABLE_I;
    announced(rt, "length_33", &mut rows, 10, 0, 33, 1)?;
    announced(rt, "bits_past_the_length", &mut rows, 10, 1, 31, 1)?;
    announced(rt, "port_0", &mut rows, 10, 0, 1, 0)?;
    announced(rt, "port_4095", &mut rows, 10, 0, 1, 4095)?;
    announced(rt, "not_in_good_order", &mut rows, 11, 0, 1, 1)?;
    withdrawn(rt, "withdrawal_of_length_33", &mut rows, 10, 0, 33)?;
    withdrawn(
        rt,
        "withdrawal_with_bits_past_the_length",
        &mut rows,
        10,
        1,
        31,
    )?;
    withdrawn(
        rt,
        "withdrawal_from_a_table_not_in_good_order",
        &mut rows,
        11,
        0,
        2,
    )?;
    withdrawn(rt, "withdrawal_of_a_prefix_not_held", &mut rows, 10, 0, 1)?;
    announced(rt, "two_rows_are_free", &mut rows, 10, 0, 1, 1)?;
    announced(rt, "now_one", &mut rows, 11, 0, 3, 1)?;
    announced(rt, "now_none", &mut rows, 12, 0, 4, 1)?;
    announced(rt, "but_a_held_prefix_needs_none", &mut rows, 12, 0, 3, 2)
}

// The longer route leaves no trace where the search no longer comes.
fn nested(rt: &impl Print) -> io::Result<()> {
    let mut rows = [0u32; 15];
    show(
        rt,
        "no_row_for_the_third_route",
        Answer::from(build(&NESTED, &mut [0u32; 14])),
    )?;
    show(
        rt,
        "three_nested_routes_are_built",
        Answer::from(build(&NESTED, &mut rows)),
    )?;
    show_words(rt, &rows)?;
    show_port(rt, "0110_goes_to_the_longest", &rows, 3, 1610612736)?;
    show_port(rt, "0111_to_the_shorter", &rows, 3, 1879048192)?;
    withdrawn(rt, "the_longest_is_withdrawn", &mut rows, 3, 1610612736, 4)?;
    show_words(rt, &rows)?;
    show_port(rt, "0110_goes_to_the_shorter", &rows, 2, 1610612736)?;
    withdrawn(rt, "then_the_whole_space", &mut rows, 2, 0, 0)?;
    show_port(rt, "1_goes_nowhere", &rows, 1, 2147483648)?;
    withdrawn(rt, "then_the_last", &mut rows, 1, 0, 1)?;
    show_words(rt, &rows)
}

// "With routes /0, 0 and 0110, withdrawing /0 puts 0110 at the root, since 0 is ordinary and hides a longer one." The fourth row is
// past the table and stays.
fn hidden(rt: &impl Print) -> io::Result<()> {
    let mut rows = [7u32; 20];
    show(
        rt,
        "three_routes_one_hidden",
        Answer::from(build(&NESTED, &mut rows)),
    )?;
    withdrawn(rt, "the_whole_space_is_withdrawn", &mut rows, 3, 0, 0)?;
    show_words(rt, &rows)?;
    show_port(rt, "0110_is_at_the_root", &rows, 2, 1610612736)?;
    show_port(rt, "0111_goes_on_to_the_shorter", &rows, 2, 1879048192)?;
    show_port(rt, "1_now_goes_nowhere", &rows, 2, 2147483648)
}

fn main(rt: HostRuntime) -> io::Result<()> {
    example_8(&rt)?;
    refusals(&rt)?;
    nested(&rt)?;
    hidden(&rt)
}

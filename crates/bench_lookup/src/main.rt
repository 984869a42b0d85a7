// RULES, "Examples", 1 to 7, run; their table damaged in each way that is refused; and
// that table saved as a list. A line is `claim`, the lookup's number, port and rows read, and the number that the check answers.
#![tactic(auto)]

use refusals::Answer;
use refusals::found::Found;
use routes::{Route, route_at};
use std::io;
use table_lookup::{check, lookup};
use table_rows::{capacity_of, store_row};
use table_rules::Row;
use table_save::save;

// Stores row r, whose port is r+1.
fn row(rows: &mut [u32], r: u32, value: u32, len: u32, left: u32, right: u32) {
    if r < capacity_of(rows) {
        let port = r + 1;
        store_row(
            rows,
            r,
            Row {
                value,
                len,
                port,
                left,
                right,
            },
        );
    }
}

// "rows 0..9 hold 100110, 00, 10010, 01, 10011, 11, 1000, 101, 1110, 1111"
fn table_i() -> [u32; 50] {
    let mut rows = [0u32; 50];
    row(&mut rows, 0, 2550136832, 6, 1, 2);
    row(&mut rows, 1, 0, 2, 0, 3);
    row(&mut rows, 2, 2415919104, 5, 4, 5);
    row(&mut rows, 3, 1073741824, 2, 0, 0);
    row(&mut rows, 4, 2550136832, 5, 6, 7);
    row(&mut rows, 5, 3221225472, 2, 0, 8);
    row(&mut rows, 6, 2147483648, 4, 0, 0);
    row(&mut rows, 7, 2684354560, 3, 0, 0);
    row(&mut rows, 8, 3758096384, 4, 0, 9);
    row(&mut rows, 9, 4026531840, 4, 0, 0);
    rows
}

fn show(rt: &impl Print, claim: &str, rows: &[u32], n: u32, address: u32) -> io::Result<()> {
    let Found {
        number,
        port,
        reads,
    } = Found::from(lookup(rows, n, address));
    let checked = Answer::from(check(rows, n)).number;
    println!(rt; "{claim} {number} {port} {reads} {checked}")
}

// Table I as it is.
fn whole(rt: &impl Print, claim: &str, address: u32) -> io::Result<()> {
    show(rt, claim, &table_i(), 10, address)
}

// Table I with one word changed.
fn changed(at: usize, word: u32) -> [u32; 50] {
    let mut rows = table_i();
    if let Some(x) = rows.get_mut(at) {
        *x = word;
    }
    rows
}

fn damaged(rt: &impl Print, claim: &str, at: usize, word: u32, address: u32) -> io::Result<()> {
    let rows = changed(at, word);
    show(rt, claim, &rows, 10, address)
}

fn examples(rt: &impl Print) -> io::Result<()> {
    whole(rt, "100110_is_row_0", 2550136832)?;
    whole(rt, "00_is_row_1", 0)?;
    whole(rt, "10010_is_row_2", 2415919104)?;
    whole(rt, "1000_is_row_6", 2147483648)?;
    whole(rt, "101_is_row_7", 2684354560)?;
    whole(rt, "1101_is_row_5", 3489660928)?;
    whole(rt, "1111_is_row_9", 4026531840)?;
    show(rt, "no_rows_read_of_an_empty_table", &table_i(), 0, 0)
}

// "It answers 11 if n exceeds the capacity (no row read), or if a row read has": in the order of the rules. The word is number
// 5 r + k, for word k of row r.
fn refusals(rt: &impl Print) -> io::Result<()> {
    show(rt, "n_past_the_rows_lent", &table_i(), 11, 0)?;
    damaged(rt, "left_child_n", 3, 10, 0)?;
    damaged(rt, "right_child_n", 14, 10, 2415919104)?;
    damaged(rt, "length_33", 1, 33, 0)?;
    damaged(rt, "length_below_the_depth", 31, 2, 2147483648)?;
    damaged(rt, "bits_past_the_length", 10, 2415919105, 2415919104)?;
    damaged(rt, "port_0", 32, 0, 2147483648)?;
    damaged(rt, "port_4095", 37, 4095, 2684354560)?;
    damaged(rt, "prefix_off_the_path", 25, 1073741824, 3489660928)
}

// What only the check sees, since the lookup does not come by.
fn good_order(rt: &impl Print) -> io::Result<()> {
    damaged(rt, "row_9_is_not_reached", 44, 0, 0)?;
    damaged(rt, "row_1_below_itself", 18, 1, 0)?;
    damaged(rt, "row_7_is_reached_twice", 33, 7, 2684354560)?;
    damaged(rt, "one_prefix_twice", 1, 5, 2550136832)
}

// A line is `claim`, the number, the place and the routes that the saving answers.
fn save_into(rt: &impl Print, claim: &str, rows: &[u32], list: &mut [u32]) -> io::Result<()> {
    let Answer {
        number,
        place,
        count,
    } = Answer::from(save(rows, 10, list));
    println!(rt; "{claim} {number} {place} {count}")
}

fn show_route(rt: &impl Print, claim: &str, list: &[u32], i: usize) -> io::Result<()> {
    let Route { value, len, port } = route_at(list, i);
    println!(rt; "{claim} {value} {len} {port}")
}

fn show_saved(rt: &impl Print, list: &[u32]) -> io::Result<()> {
    show_route(rt, "first_00", list, 0)?;
    show_route(rt, "then_01", list, 1)?;
    show_route(rt, "then_1000", list, 2)?;
    show_route(rt, "then_10010", list, 3)?;
    show_route(rt, "then_10011", list, 4)?;
    show_route(rt, "then_100110", list, 5)?;
    show_route(rt, "then_101", list, 6)?;
    show_route(rt, "then_11", list, 7)?;
    show_route(rt, "then_1110", list, 8)?;
    show_route(rt, "last_1111", list, 9)?;
    show_route(rt, "the_words_past_them_are_as_they_were", list, 10)
}

fn saving(rt: &impl Print) -> io::Result<()> {
    let mut short = [0u32; 29];
    save_into(rt, "no_room_for_10_routes", &table_i(), &mut short)?;
    show_route(rt, "nothing_is_written", &short, 0)?;
    save_into(
        rt,
        "not_in_good_order_comes_first",
        &changed(1, 33),
        &mut short,
    )?;
    let mut list = [7u32; 33];
    save_into(rt, "10_routes_are_saved", &table_i(), &mut list)?;
    show_saved(rt, &list)
}

fn main(rt: HostRuntime) -> io::Result<()> {
    examples(&rt)?;
    refusals(&rt)?;
    good_order(&rt)?;
    saving(&rt)
}

// The messages of examples/messages, applied in order, those of each neighbour to a table that is empty before the first; then ways that
// the parts of a message meet, messages that are refused, and one that is written. A line is `claim`, number, place and n, then the
// routes held, each with its port. Messages are typed without their marker.
#![tactic(auto)]

use message_apply::apply;
use message_write::write_message;
use refusals::Answer;
use routes::{Route, route_at};
use std::{fmt, io};
use table_save::save;

// The prefix as four octets and a length, and the port.
fn show_route(rt: &impl Print, route: Route) -> io::Result<()> {
    let Route { value, len, port } = route;
    let [a, b, c, d] = value.to_be_bytes();
    print!(rt; " {a}.{b}.{c}.{d}/{len}:{port}")
}

fn show_routes(rt: &impl Print, list: &[u32], n: u32) -> io::Result<()> {
    for i in 0..n as usize {
        show_route(rt, route_at(list, i))?;
    }
    println!(rt)
}

// All words or all bytes.
fn show_all<T: fmt::Display>(rt: &impl Print, items: &[T]) -> io::Result<()> {
    for x in items {
        print!(rt; " {x}")?;
    }
    println!(rt)
}

fn answered(rt: &impl Print, claim: &str, answer: Answer) -> io::Result<()> {
    let Answer {
        number,
        place,
        count,
    } = answer;
    print!(rt; "{claim} {number} {place} {count}")
}

// A table that is not in good order shows no routes.
fn shown(rt: &impl Print, claim: &str, a: Answer, rows: &[u32]) -> io::Result<u32> {
    let mut list = [0u32; 18];
    answered(rt, claim, a)?;
    let saved = save(rows, a.count, &mut list).unwrap_or(0);
    show_routes(rt, &list, saved)?;
    Ok(a.count)
}

// The first bytes of those lent, as a message.
fn applied(
    rt: &impl Print,
    claim: &str,
    bytes: &[u8],
    size: usize,
    port: u32,
    rows: &mut [u32],
    n: u32,
) -> io::Result<u32> {
    match bytes.get(..size) {
        Some(message) => {
            let answer = Answer::updated(n, apply(message, port, rows, n));
            shown(rt, claim, answer, rows)
        }
        None => Ok(n),
    }
}

// The bytes after the marker.
fn fill(message: &mut [u8], body: &[u8]) {
    for (to, byte) in message.iter_mut().skip(16).zip(body) {
        *to = *byte;
    }
}

fn sent(
    rt: &impl Print,
    claim: &str,
    body: &[u8],
    port: u32,
    rows: &mut [u32],
    n: u32,
) -> io::Result<u32> {
    let mut message = [255u8; 60];
    fill(&mut message, body);
    applied(rt, claim, &message, 16 + body.len(), port, rows, n)
}

fn tried(rt: &impl Print, claim: &str, body: &[u8], port: u32) -> io::Result<()> {
    sent(rt, claim, body, port, &mut [0u32; 5], 0)?;
    Ok(())
}

// "six prefixes, with 18 bytes of path attributes"
fn six(rt: &impl Print, claim: &str, rows: &mut [u32]) -> io::Result<u32> {
    sent(
        rt,
        claim,
        b"\x00\x3C\x02\x00\x00\x00\x12\x40\x01\x01\x00\x40\x02\x04\x02\x01\xFD\xEA\x40\x03\x04\x7F\x00\x00\x02\x00\x0C\xAC\x10\x10\x0A\x01\x08\x0A\x20\xCB\x00\x71\x07\x1B\xC0\xA8\x05\x00",
        1,
        rows,
        0,
    )
}

fn bird(rt: &impl Print, rows: &mut [u32]) -> io::Result<()> {
    let one = six(rt, "bird_announces_six", rows)?;
    let two = sent(
        rt,
        "bird_has_sent_all",
        b"\x00\x17\x02\x00\x00\x00\x00",
        2,
        rows,
        one,
    )?;
    let three = sent(
        rt,
        "bird_withdraws_all_but_one",
        b"\x00\x28\x02\x00\x11\x00\x10\x0A\x01\x0C\xAC\x10\x1B\xC0\xA8\x05\x00\x20\xCB\x00\x71\x07\x00\x00",
        3,
        rows,
        two,
    )?;
    sent(
        rt,
        "bird_announces_two_more",
        b"\x00\x31\x02\x00\x00\x00\x12\x40\x01\x01\x00\x40\x02\x04\x02\x01\xFD\xEA\x40\x03\x04\x7F\x00\x00\x02\x09\x0A\x80\x19\xC6\x33\x64\x00",
        4,
        rows,
        three,
    )?;
    Ok(())
}

// "10.0.0.0/8 withdrawn, and half of it announced"
fn halved(rt: &impl Print, claim: &str, port: u32, rows: &mut [u32], n: u32) -> io::Result<u32> {
    sent(
        rt,
        claim,
        b"\x00\x2E\x02\x00\x02\x08\x0A\x00\x12\x40\x01\x01\x00\x40\x02\x04\x02\x01\xFD\xEA\x40\x03\x04\xC0\x00\x02\x01\x09\x0A\x80",
        port,
        rows,
        n,
    )
}

fn exabgp(rt: &impl Print, rows: &mut [u32]) -> io::Result<()> {
    let one = sent(
        rt,
        "exabgp_has_nothing_to_send",
        b"\x00\x17\x02\x00\x00\x00\x00",
        1,
        rows,
        0,
    )?;
    let two = sent(
        rt,
        "exabgp_announces_six",
        b"\x00\x3C\x02\x00\x00\x00\x12\x40\x01\x01\x00\x40\x02\x04\x02\x01\xFD\xEA\x40\x03\x04\xC0\x00\x02\x01\x00\x08\x0A\x0C\xAC\x10\x10\x0A\x01\x19\xC6\x33\x64\x00\x20\xCB\x00\x71\x07",
        2,
        rows,
        one,
    )?;
    let three = sent(
        rt,
        "exabgp_withdraws_three",
        b"\x00\x22\x02\x00\x0B\x0C\xAC\x10\x10\x0A\x01\x19\xC6\x33\x64\x00\x00\x00",
        3,
        rows,
        two,
    )?;
    halved(rt, "exabgp_halves_one", 4, rows, three)?;
    Ok(())
}

// 10.0.0.0/8 and then 10.128.0.0/9 in a table of one row.
fn one_row(rt: &impl Print, rows: &mut [u32]) -> io::Result<()> {
    let one = sent(
        rt,
        "one_row_for_one",
        b"\x00\x19\x02\x00\x00\x00\x00\x08\x0A",
        1,
        rows,
        0,
    )?;
    let two = sent(
        rt,
        "one_row_for_two_is_refused_9",
        b"\x00\x1A\x02\x00\x00\x00\x00\x09\x0A\x80",
        2,
        rows,
        one,
    )?;
    let three = halved(rt, "a_withdrawn_route_leaves_its_row", 3, rows, two)?;
    met(rt, rows, three)
}

// 10.128.0.0/9 twice in a message, once with spare bits set.
fn met(rt: &impl Print, rows: &mut [u32], n: u32) -> io::Result<()> {
    let four = sent(
        rt,
        "in_both_parts_it_is_announced",
        b"\x00\x1D\x02\x00\x03\x09\x0A\xC8\x00\x00\x09\x0A\x80",
        4,
        rows,
        n,
    )?;
    let five = sent(
        rt,
        "announced_twice_it_is_one",
        b"\x00\x1D\x02\x00\x00\x00\x00\x09\x0A\x80\x09\x0A\xFF",
        5,
        rows,
        four,
    )?;
    sent(
        rt,
        "withdrawn_twice_it_is_gone",
        b"\x00\x1D\x02\x00\x06\x09\x0A\x80\x09\x0A\xFF\x00\x00",
        6,
        rows,
        five,
    )?;
    Ok(())
}

fn heads(rt: &impl Print) -> io::Result<()> {
    tried(
        rt,
        "22_bytes_are_refused_14",
        b"\x00\x16\x02\x00\x00\x00",
        1,
    )?;
    tried(
        rt,
        "a_byte_less_than_it_says_is_refused_14",
        b"\x00\x18\x02\x00\x00\x00\x00",
        1,
    )?;
    tried(
        rt,
        "another_type_is_refused_14",
        b"\x00\x17\x04\x00\x00\x00\x00",
        1,
    )?;
    tried(
        rt,
        "one_byte_after_the_withdrawn_part_is_refused_14",
        b"\x00\x17\x02\x00\x01\x00\x00",
        1,
    )?;
    tried(
        rt,
        "attributes_past_the_end_are_refused_14",
        b"\x00\x17\x02\x00\x00\x00\x01",
        1,
    )
}

fn unmarked(rt: &impl Print, rows: &mut [u32]) -> io::Result<()> {
    let mut message = [255u8; 23];
    fill(&mut message, b"\x00\x17\x02\x00\x00\x00\x00");
    message[15] = 254;
    applied(
        rt,
        "a_marker_of_15_ones_is_refused_14",
        &message,
        23,
        1,
        rows,
        0,
    )?;
    Ok(())
}

fn prefixes(rt: &impl Print) -> io::Result<()> {
    tried(
        rt,
        "length_33_is_refused_4",
        b"\x00\x1B\x02\x00\x00\x00\x00\x08\x0A\x21\x0A",
        1,
    )?;
    tried(
        rt,
        "a_prefix_past_its_part_is_refused_14",
        b"\x00\x18\x02\x00\x01\x08\x00\x00",
        1,
    )?;
    tried(
        rt,
        "port_0_is_refused_6",
        b"\x00\x17\x02\x00\x00\x00\x00",
        0,
    )
}

// Five rows of sevens: no table of one route, and an empty one without room for six. They stay as they are.
fn kept(rt: &impl Print, rows: &mut [u32]) -> io::Result<()> {
    sent(
        rt,
        "another_order_is_refused_11",
        b"\x00\x17\x02\x00\x00\x00\x00",
        1,
        rows,
        1,
    )?;
    six(rt, "five_rows_for_six_are_refused_9", rows)?;
    show_all(rt, rows)
}

// /0, 10.0.0.0/8 and 203.0.113.7/32 take 1, 2 and 5 bytes: 31 with the head.
fn written(rt: &impl Print, message: &mut [u8]) -> io::Result<()> {
    let list = [0, 0, 1, 167772160, 8, 1, 3405803783, 32, 1];
    answered(
        rt,
        "room_for_30_is_refused_9",
        Answer::from(write_message(&list, &mut [0u8; 30])),
    )?;
    println!(rt)?;
    answered(
        rt,
        "three_are_withdrawn_in_31",
        Answer::from(write_message(&list, message)),
    )?;
    show_all(rt, message)
}

fn applied_again(rt: &impl Print, message: &[u8], rows: &mut [u32]) -> io::Result<()> {
    let n = six(rt, "six_are_held", rows)?;
    applied(
        rt,
        "the_written_message_leaves_three",
        message,
        31,
        1,
        rows,
        n,
    )?;
    Ok(())
}

fn main(rt: HostRuntime) -> io::Result<()> {
    let mut message = [7u8; 32];
    bird(&rt, &mut [0u32; 30])?;
    exabgp(&rt, &mut [0u32; 30])?;
    one_row(&rt, &mut [0u32; 5])?;
    heads(&rt)?;
    unmarked(&rt, &mut [0u32; 5])?;
    prefixes(&rt)?;
    kept(&rt, &mut [7u32; 25])?;
    written(&rt, &mut message)?;
    applied_again(&rt, &message, &mut [0u32; 30])
}

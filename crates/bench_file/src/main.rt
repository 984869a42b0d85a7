// The examples of the route file in the rules, run: one line `claim value` each. "done" comes with the count of routes or of
// bytes, "refused" with the number and the place.
#![tactic(auto)]

use file_read::read_file;
use file_write::write_file;
use refusals::Refusal;
use std::{fmt, io};

fn show(rt: &impl Print, answer: Result<u32, Refusal>) -> io::Result<()> {
    match answer {
        Ok(count) => println!(rt; " done {count}"),
        Err(r) => {
            let number = u32::from(r.fault);
            let place = r.place;
            println!(rt; " refused {number} {place}")
        }
    }
}

// The words of a list, or the bytes of a file.
fn show_all<T: fmt::Display>(rt: &impl Print, claim: &str, items: &[T]) -> io::Result<()> {
    rt.print(claim)?;
    for x in items {
        print!(rt; " {x}")?;
    }
    println!(rt)
}

// The first n bytes of a file, read into a list.
fn read_part(
    rt: &impl Print,
    claim: &str,
    file: &[u8],
    n: usize,
    list: &mut [u32],
) -> io::Result<()> {
    rt.print(claim)?;
    match file.get(..n) {
        Some(part) => show(rt, read_file(part, list)),
        None => Ok(()),
    }
}

// The first n words of a list, written into a file.
fn write_part(
    rt: &impl Print,
    claim: &str,
    list: &[u32],
    n: usize,
    file: &mut [u8],
) -> io::Result<()> {
    rt.print(claim)?;
    match list.get(..n) {
        Some(part) => show(rt, write_file(part, file)),
        None => Ok(()),
    }
}

// A file, read where there is room for three routes.
fn read(rt: &impl Print, claim: &str, file: &[u8]) -> io::Result<()> {
    let mut list = [0u32; 9];
    rt.print(claim)?;
    show(rt, read_file(file, &mut list))
}

// A list, written where there is room for three routes.
fn write(rt: &impl Print, claim: &str, list: &[u32]) -> io::Result<()> {
    let mut file = [0u8; 26];
    rt.print(claim)?;
    show(rt, write_file(list, &mut file))
}

fn heads(rt: &impl Print) -> io::Result<()> {
    read(rt, "an_empty_file_is_refused_1", b"")?;
    read(rt, "four_bytes_are_refused_1", b"\x01\x00\x00\x00")?;
    read(rt, "version_2_is_refused_2", b"\x02\x00\x00\x00\x00")?;
    read(rt, "a_size_too_large_is_refused_3", b"\x01\x00\x00\x00\x01")?;
    read(
        rt,
        "a_size_too_small_is_refused_3",
        b"\x01\x00\x00\x00\x03\x00\x00\x01\x00",
    )?;
    read(
        rt,
        "a_size_is_big_endian",
        b"\x01\x03\x00\x00\x00\x00\x00\x01",
    )
}

fn lengths(rt: &impl Print) -> io::Result<()> {
    read(
        rt,
        "length_32_is_accepted",
        b"\x01\x00\x00\x00\x07\x20\x0A\x00\x00\x01\x00\x07",
    )?;
    read(
        rt,
        "length_33_is_refused_4",
        b"\x01\x00\x00\x00\x08\x21\x0A\x00\x00\x01\x00\x00\x07",
    )?;
    read(
        rt,
        "a_prefix_of_length_0_has_no_byte",
        b"\x01\x00\x00\x00\x03\x00\x00\x07",
    )?;
    read(
        rt,
        "a_cut_route_is_refused_3",
        b"\x01\x00\x00\x00\x07\x08\x0A\x00\x07\x10\x0A\x01",
    )?;
    read(
        rt,
        "bits_past_the_length_are_accepted",
        b"\x01\x00\x00\x00\x04\x07\x0B\x00\x07",
    )
}

fn ports(rt: &impl Print) -> io::Result<()> {
    read(
        rt,
        "port_1_is_accepted",
        b"\x01\x00\x00\x00\x04\x08\x0A\x00\x01",
    )?;
    read(
        rt,
        "port_4094_is_accepted",
        b"\x01\x00\x00\x00\x04\x08\x0A\x0F\xFE",
    )?;
    read(
        rt,
        "port_0_is_refused_6",
        b"\x01\x00\x00\x00\x04\x08\x0A\x00\x00",
    )?;
    read(
        rt,
        "port_4095_is_refused_6",
        b"\x01\x00\x00\x00\x04\x08\x0A\x0F\xFF",
    )
}

fn orders(rt: &impl Print) -> io::Result<()> {
    read(
        rt,
        "an_equal_prefix_is_refused_7",
        b"\x01\x00\x00\x00\x08\x08\x0A\x00\x07\x08\x0A\x00\x09",
    )?;
    read(
        rt,
        "a_smaller_value_is_refused_7",
        b"\x01\x00\x00\x00\x08\x08\x0B\x00\x07\x08\x0A\x00\x09",
    )?;
    read(
        rt,
        "four_routes_for_three_are_refused_9",
        b"\x01\x00\x00\x00\x10\x08\x0A\x00\x07\x08\x0B\x00\x07\x08\x0C\x00\x07\x08\x0D\x00\x07",
    )?;
    read(
        rt,
        "7_comes_before_9",
        b"\x01\x00\x00\x00\x10\x08\x0A\x00\x07\x08\x0B\x00\x07\x08\x0C\x00\x07\x08\x0C\x00\x07",
    )
}

// The order is that of the routes with their spare bits cleared.
fn spared_orders(rt: &impl Print) -> io::Result<()> {
    read(
        rt,
        "a_prefix_equal_once_cleared_is_refused_7",
        b"\x01\x00\x00\x00\x0A\x09\x0A\x80\x00\x07\x09\x0A\x81\x00\x08",
    )?;
    read(
        rt,
        "a_prefix_below_once_cleared_is_refused_7",
        b"\x01\x00\x00\x00\x0A\x10\x0A\x80\x00\x07\x09\x0A\x81\x00\x08",
    )
}

fn listed_lengths(rt: &impl Print) -> io::Result<()> {
    write(rt, "two_words_are_refused_3", &[167772160, 8])?;
    write(rt, "a_listed_length_32_is_accepted", &[167772161, 32, 7])?;
    write(rt, "a_listed_length_33_is_refused_4", &[167772161, 33, 7])?;
    write(
        rt,
        "listed_bits_past_the_length_are_refused_5",
        &[167772160, 8, 7, 167772161, 31, 7],
    )
}

fn listed_ports(rt: &impl Print) -> io::Result<()> {
    write(rt, "a_listed_port_0_is_refused_6", &[167772160, 8, 0])?;
    write(rt, "a_listed_port_4095_is_refused_6", &[167772160, 8, 4095])?;
    write(
        rt,
        "a_listed_equal_prefix_is_refused_7",
        &[167772160, 8, 7, 167772160, 8, 9],
    )?;
    write(
        rt,
        "33_bytes_for_26_are_refused_9",
        &[1, 32, 7, 2, 32, 7, 3, 32, 7, 4, 32, 7],
    )
}

// "01 00 00 00 00 is the empty list."
fn empty(rt: &impl Print) -> io::Result<()> {
    let none: [u32; 0] = [];
    let mut file = [9u8; 6];
    read(
        rt,
        "01_00_00_00_00_is_the_empty_list",
        b"\x01\x00\x00\x00\x00",
    )?;
    rt.print("the_empty_list_is_written")?;
    show(rt, write_file(&none, &mut file))?;
    show_all(rt, "the_empty_list_as_bytes", &file)
}

// The file of three routes that the program `runs` reads: into a list of four, and back into 22 bytes.
fn three(rt: &impl Print) -> io::Result<()> {
    let file = b"\x01\x00\x00\x00\x0F\x08\x0A\x00\x07\x10\x0A\x01\x00\x09\x18\x0A\x01\x02\x00\x07";
    let mut list = [99u32; 12];
    let mut back = [99u8; 22];
    rt.print("three_routes_are_read")?;
    show(rt, read_file(file, &mut list))?;
    show_all(rt, "three_routes_as_words", &list)?;
    write_part(rt, "three_routes_are_written", &list, 9, &mut back)?;
    show_all(rt, "three_routes_as_bytes", &back)
}

// A /1, a /9 and a /25 with all their spare bits set: seven of each. They come back cleared.
fn spared(rt: &impl Print) -> io::Result<()> {
    let file =
        b"\x01\x00\x00\x00\x10\x01\x7F\x00\x07\x09\x0A\xFF\x00\x09\x19\x0A\xC0\x01\xFF\x00\x07";
    let mut list = [99u32; 12];
    let mut back = [99u8; 22];
    rt.print("spare_bits_are_read")?;
    show(rt, read_file(file, &mut list))?;
    show_all(rt, "spare_bits_as_words", &list)?;
    write_part(rt, "spare_bits_are_written", &list, 9, &mut back)?;
    show_all(rt, "spare_bits_as_bytes", &back)
}

// As many routes as there is room for, of length 32, with ascending values.
fn ascend(list: &mut [u32]) {
    for (i, row) in list.chunks_exact_mut(3).enumerate() {
        row[0] = (i % 65536) as u32;
        row[1] = 32;
        row[2] = 1;
    }
}

fn put(file: &mut [u8], at: usize, byte: u8) {
    if let Some(x) = file.get_mut(at) {
        *x = byte;
    }
}

// One route more, 0.0.16.0/32, of seven bytes: the size is then 28,679.
fn add_route(file: &mut [u8]) {
    put(file, 4, 7);
    put(file, 28677, 32);
    put(file, 28680, 16);
    put(file, 28683, 1);
}

fn most_written(rt: &impl Print, list: &mut [u32], file: &mut [u8]) -> io::Result<()> {
    ascend(list);
    write_part(rt, "4097_listed_routes_are_refused_8", list, 12291, file)?;
    write_part(rt, "4096_listed_routes_are_accepted", list, 12288, file)
}

fn most_read(rt: &impl Print, file: &mut [u8], list: &mut [u32]) -> io::Result<()> {
    read_part(rt, "4096_routes_are_accepted", file, 28677, list)?;
    add_route(file);
    read_part(rt, "4097_routes_are_refused_8", file, 28684, list)
}

// 4,096 routes, and one more.
fn most(rt: &impl Print) -> io::Result<()> {
    let mut list = [0u32; 12291];
    let mut file = [0u8; 28684];
    most_written(rt, &mut list, &mut file)?;
    most_read(rt, &mut file, &mut list)
}

fn main(rt: HostRuntime) -> io::Result<()> {
    heads(&rt)?;
    lengths(&rt)?;
    ports(&rt)?;
    orders(&rt)?;
    spared_orders(&rt)?;
    empty(&rt)?;
    three(&rt)?;
    spared(&rt)?;
    listed_lengths(&rt)?;
    listed_ports(&rt)?;
    most(&rt)
}

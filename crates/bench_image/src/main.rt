// Bench examples 9, 10 and 11 of the rules, built from their routes and looked up, and builds that are refused. A build's line is
// `claim`, number, place, nodes, ports; a lookup's is `claim`, number, port, nodes read.
#![tactic(auto)]

use image_build::{Built, build};
use image_lookup::lookup;
use refusals::found::{Found, Lost, Reached};
use std::io;

// "Routes 01, 10, 000, 001, 111, 1100, 1101 with ports 1..7", in list order.
fn seven() -> [u32; 21] {
    [
        0, 3, 3, 536870912, 3, 4, 1073741824, 2, 1, 2147483648, 2, 2, 3221225472, 4, 6, 3489660928,
        4, 7, 3758096384, 3, 5,
    ]
}

// The bitmaps or the offsets of all nodes lent: part 0 or 1.
fn show_nodes(rt: &impl Print, claim: &str, nodes: &[u32], part: usize) -> io::Result<()> {
    print!(rt; "{claim}")?;
    for node in nodes.chunks_exact(2) {
        if let Some(x) = node.get(part) {
            print!(rt; " {x}")?;
        }
    }
    println!(rt)
}

// All ports lent.
fn show_ports(rt: &impl Print, claim: &str, ports: &[u16]) -> io::Result<()> {
    print!(rt; "{claim}")?;
    for port in ports {
        print!(rt; " {port}")?;
    }
    println!(rt)
}

fn found(rt: &impl Print, claim: &str, x: Result<Reached, Lost>) -> io::Result<()> {
    let Found {
        number,
        port,
        reads,
    } = Found::from(x);
    println!(rt; "{claim} {number} {port} {reads}")
}

// A build of the seven routes into memory for so many nodes and ports as are lent.
fn built(
    rt: &impl Print,
    claim: &str,
    stride: u32,
    list: &[u32],
    nodes: &mut [u32],
    ports: &mut [u16],
) -> io::Result<()> {
    let Built {
        number,
        place,
        nodes,
        ports,
    } = Built::from(build(stride, list, nodes, ports));
    println!(rt; "{claim} {number} {place} {nodes} {ports}")
}

fn looked(rt: &impl Print, claim: &str, stride: u32, address: u32) -> io::Result<()> {
    let mut nodes = [0u32; 12];
    let mut ports = [0u16; 10];
    let _ = build(stride, &seven(), &mut nodes, &mut ports);
    found(rt, claim, lookup(stride, &nodes, &ports, address))
}

// Example 9, in memory for one node and one port more, which stay as they were.
fn image_9(rt: &impl Print, nodes: &mut [u32], ports: &mut [u16]) -> io::Result<()> {
    built(rt, "example_9_is_built", 1, &seven(), nodes, ports)?;
    show_nodes(rt, "example_9_bitmaps", nodes, 0)?;
    show_nodes(rt, "example_9_offsets", nodes, 1)?;
    show_ports(rt, "example_9_ports", ports)
}

fn example_9(rt: &impl Print) -> io::Result<()> {
    let mut nodes = [77u32; 14];
    let mut ports = [77u16; 8];
    image_9(rt, &mut nodes, &mut ports)
}

fn addresses_9(rt: &impl Print) -> io::Result<()> {
    looked(rt, "stride_1_address_0101", 1, 1342177280)?;
    looked(rt, "stride_1_address_000", 1, 0)?;
    looked(rt, "stride_1_address_001", 1, 536870912)?;
    looked(rt, "stride_1_address_10", 1, 2147483648)?;
    looked(rt, "stride_1_address_1100", 1, 3221225472)?;
    looked(rt, "stride_1_address_1101", 1, 3489660928)?;
    looked(rt, "stride_1_last_address", 1, 4294967295)
}

fn image_10(rt: &impl Print, nodes: &mut [u32], ports: &mut [u16]) -> io::Result<()> {
    built(rt, "example_10_is_built", 2, &seven(), nodes, ports)?;
    show_nodes(rt, "example_10_bitmaps", nodes, 0)?;
    show_nodes(rt, "example_10_offsets", nodes, 1)?;
    show_ports(rt, "example_10_ports", ports)
}

fn example_10(rt: &impl Print) -> io::Result<()> {
    let mut nodes = [77u32; 6];
    let mut ports = [77u16; 10];
    image_10(rt, &mut nodes, &mut ports)
}

fn addresses_10(rt: &impl Print) -> io::Result<()> {
    looked(rt, "stride_2_address_0101", 2, 1342177280)?;
    looked(rt, "stride_2_address_000", 2, 0)?;
    looked(rt, "stride_2_address_001", 2, 536870912)?;
    looked(rt, "stride_2_address_10", 2, 2147483648)?;
    looked(rt, "stride_2_address_1101", 2, 3489660928)?;
    looked(rt, "stride_2_last_address", 2, 4294967295)
}

fn image_11(rt: &impl Print, nodes: &mut [u32], ports: &mut [u16]) -> io::Result<()> {
    let none = [0u32; 0];
    built(rt, "example_11_is_built", 4, &none, nodes, ports)?;
    show_nodes(rt, "example_11_bitmap", nodes, 0)?;
    show_nodes(rt, "example_11_offset", nodes, 1)?;
    show_ports(rt, "example_11_ports", ports)
}

fn addresses_11(rt: &impl Print, nodes: &[u32], ports: &[u16]) -> io::Result<()> {
    found(rt, "empty_image_address_0", lookup(4, nodes, ports, 0))?;
    found(
        rt,
        "empty_image_last_address",
        lookup(4, nodes, ports, 4294967295),
    )
}

fn example_11(rt: &impl Print) -> io::Result<()> {
    let mut nodes = [77u32; 2];
    let mut ports = [77u16; 16];
    image_11(rt, &mut nodes, &mut ports)?;
    addresses_11(rt, &nodes, &ports)
}

// A build that is refused writes nothing.
fn refused(
    rt: &impl Print,
    claim: &str,
    stride: u32,
    list: &[u32],
    nodes: &mut [u32],
    ports: &mut [u16],
) -> io::Result<()> {
    built(rt, claim, stride, list, nodes, ports)?;
    show_ports(rt, "no_port_is_written", ports)?;
    show_nodes(rt, "no_bitmap_is_written", nodes, 0)
}

// The seven routes, or another list, into memory for six nodes and seven ports.
fn refused_list(rt: &impl Print, claim: &str, stride: u32, list: &[u32]) -> io::Result<()> {
    let mut nodes = [77u32; 12];
    let mut ports = [77u16; 7];
    refused(rt, claim, stride, list, &mut nodes, &mut ports)
}

fn refusals(rt: &impl Print) -> io::Result<()> {
    refused_list(rt, "stride_3_is_refused_12", 3, &seven())?;
    refused_list(rt, "stride_0_before_the_list_checks", 0, &[0, 0, 0, 0])?;
    refused_list(rt, "no_whole_routes_is_refused_3", 1, &[0, 0, 0, 0])?;
    refused_list(rt, "length_33_is_refused_4", 1, &[0, 33, 1])?;
    refused_list(rt, "spare_bits_are_refused_5", 1, &[1, 31, 1])?;
    refused_list(rt, "port_0_is_refused_6", 1, &[0, 0, 0])?;
    refused_list(rt, "the_second_route_is_refused_7", 1, &[0, 1, 1, 0, 1, 2])
}

fn short_nodes(rt: &impl Print, claim: &str, list: &[u32]) -> io::Result<()> {
    let mut nodes = [77u32; 11];
    let mut ports = [77u16; 7];
    refused(rt, claim, 1, list, &mut nodes, &mut ports)
}

fn short_ports(rt: &impl Print, claim: &str, list: &[u32]) -> io::Result<()> {
    let mut nodes = [77u32; 12];
    let mut ports = [77u16; 6];
    refused(rt, claim, 1, list, &mut nodes, &mut ports)
}

fn no_room(rt: &impl Print) -> io::Result<()> {
    short_nodes(rt, "list_checks_before_9", &[0, 1, 1, 0, 1, 2])?;
    short_nodes(rt, "a_node_too_few_is_refused_9", &seven())?;
    short_ports(rt, "a_port_too_few_is_refused_9", &seven())
}

fn main(rt: HostRuntime) -> io::Result<()> {
    example_9(&rt)?;
    addresses_9(&rt)?;
    example_10(&rt)?;
    addresses_10(&rt)?;
    example_11(&rt)?;
    refusals(&rt)?;
    no_room(&rt)
}

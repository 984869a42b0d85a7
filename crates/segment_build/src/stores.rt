// The four stores filled: each function is lent on only what it fills.
ghost use Rattle.std.specs.Prelude.{◌≡◌, true, cond, ◌+◌, ◌*◌, ◌^◌, ◌≤◌, ◌<◌, length, set, get_or};
ghost use Rattle.std.proofs.lemmas.List.Edits.{sets};
ghost use Rattle.promise.specs.Over.{over};
ghost use Rattle.lists.specs.Numbered.{list_of};
ghost use Rattle.routes.specs.Routes.{route_at, route_count};
ghost use Rattle.segment_rules.specs.Packed.{block_size, packed_size, is_packed, packed_block};
ghost use Rattle.segment_rules.specs.Tables.{first_size, first_table, packed_store, plain_store, last_store};
ghost use Rattle.segment_ports.specs.RunSearch.{port_from};
ghost use Rattle.segment_build.specs.Needs.{PutLast, SegmentRoom, PutSegment, SegmentsRoom, FilledSegments, LastRoom, TablesRoom};
ghost use Rattle.segment_rules.specs.Build.{stores, tables_over};

use crate::blocks::{begins_new, block_of};
use crate::segments::{Segment, Walk, next_segment, pointer_to};
use routes::{ROUTE_SIZE, route_at};
use segment_pack::{copy, pack};
use segment_ports::fill_ports;
use segment_rules::{BLOCK_SIZE, FIRST_SIZE, PACKED_SIZE, PLAIN_POINTER, POINTER};

// The first table's ports: an entry for each block of sixteen bits.
fn fill_first(first: &mut [u16], runs: &[u32])
    requires { first_size ≤ length first.old }
    ensures { first.new ≡ sets first.old 0 (list_of (λ b. port_from runs.now 0 (b * 65536)) first_size 0) }
{
    fill_ports(&mut first[0..FIRST_SIZE], runs, 0, 0, 16);
}

// A packed block, at its number.
fn put_packed(packed: &mut [u16], number: usize, entries: &[u16; BLOCK_SIZE])
    requires { (number * packed_size + packed_size ≤ length packed.old) × (is_packed entries.now ≡ true) }
    ensures { packed.new ≡ sets packed.old (number * packed_size) (packed_block entries.now) }
{
    let at = number * PACKED_SIZE;
    pack(&mut packed[at..at + PACKED_SIZE], entries);
}

// A plain block, at its number.
fn put_plain(plain: &mut [u16], number: usize, entries: &[u16; BLOCK_SIZE])
    requires { number * block_size + block_size ≤ length plain.old }
    ensures { plain.new ≡ sets plain.old (number * block_size) (list_of (λ i. get_or entries.now i 0) block_size 0) }
{
    let at = number * BLOCK_SIZE;
    copy(&mut plain[at..at + BLOCK_SIZE], entries);
}

// A last block, at its number, for the first 24 bits y; gives the run from which those of later blocks are sought.
fn put_last(last: &mut [u16], number: usize, runs: &[u32], run: usize, y: usize) -> usize
    requires { (number * block_size + block_size ≤ length last.old) × (y < 2 ^ 24) }
    ensures { PutLast runs.now run y result last.old number last.new }
{
    let at = number * BLOCK_SIZE;
    fill_ports(&mut last[at..at + BLOCK_SIZE], runs, run, y * BLOCK_SIZE, 0)
}

// A segment: its block at its number, and what names it in the first table.
fn put_segment(first: &mut [u16], packed: &mut [u16], plain: &mut [u16], s: &Segment, walk: Walk)
    requires { SegmentRoom first.old packed.old plain.old s.now.x s.now.entries s.now.packed walk }
    ensures { PutSegment first.old packed.old plain.old s.now.x s.now.entries s.now.packed walk first.new packed.new plain.new }
{
    if s.packed {
        put_packed(packed, walk.packed, &s.entries);
        first[s.x] = pointer_to(POINTER, walk.packed);
        return;
    }
    put_plain(plain, walk.plain, &s.entries);
    first[s.x] = pointer_to(PLAIN_POINTER, walk.plain);
}

// All segments: their blocks, and what names them in the first table, which has its ports.
fn fill_segments(
    list: &[u32],
    runs: &[u32],
    first: &mut [u16],
    packed: &mut [u16],
    plain: &mut [u16],
)
    requires { SegmentsRoom (route_at list.now) (route_count list.now) runs.now first.old packed.old plain.old }
    ensures { FilledSegments (route_at list.now) (route_count list.now) first.old packed.old plain.old first.new packed.new plain.new }
{
    let mut walk = Walk::START;
    let mut i = 0;
    while let Some(s) = next_segment(list, runs, i, walk) {
        put_segment(first, packed, plain, &s, walk);
        walk = s.after;
        i = s.from;
    }
}

// All last blocks.
fn fill_last(list: &[u32], runs: &[u32], last: &mut [u16])
    requires { LastRoom (route_at list.now) (route_count list.now) runs.now last.old }
    ensures { last.new ≡ over (last_store (route_at list.now) (route_count list.now)) last.old }
{
    let mut next = 0;
    let mut number = 0;
    let mut run = 0;
    for i in 0..list.len() / ROUTE_SIZE {
        let route = route_at(list, i);
        if !begins_new(route, 24, next) {
            continue;
        }
        let y = block_of(route, 24);
        run = put_last(last, number, runs, run, y);
        next = y + 1;
        number += 1;
    }
}

// The tables, into stores that have room for them.
pub(crate) fn write_tables(
    list: &[u32],
    runs: &[u32],
    first: &mut [u16],
    packed: &mut [u16],
    plain: &mut [u16],
    last: &mut [u16],
)
    requires { TablesRoom (route_at list.now) (route_count list.now) runs.now (stores first.old packed.old plain.old last.old) }
    ensures { stores first.new packed.new plain.new last.new ≡ tables_over (route_at list.now) (route_count list.now) (stores first.old packed.old plain.old last.old) }
{
    fill_first(first, runs);
    fill_segments(list, runs, first, packed, plain);
    fill_last(list, runs, last);
}

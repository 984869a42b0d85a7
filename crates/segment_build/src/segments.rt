// The segments of a list, one after the other: their entries, their numbers, and the last blocks that they name.
ghost use Rattle.std.specs.Prelude.{◌≡◌, ◌+◌, ◌*◌, ◌≤◌, ◌<◌, MatchOption};
ghost use Rattle.routes.specs.Routes.{route_at, route_count};
ghost use Rattle.segment_build.specs.Walks.{walk_after};
ghost use Rattle.segment_build.specs.Needs.{Ready, Begun, Pointed, Walked, Met, SegmentMet, NextSegment, Counted};

use crate::blocks::{begins_new, block_of};
use routes::{ROUTE_SIZE, route_at};
use segment_pack::is_packed;
use segment_ports::fill_ports;
use segment_rules::{BLOCK_SIZE, POINTER};

// What a pass over the segments has come to: those before `next` are done, and so many of them are packed and plain; so many last blocks
// lie in them; and the run from which those of later addresses are sought.
#[derive(Clone, Copy)]
pub(crate) struct Walk {
    pub next: usize,
    pub packed: usize,
    pub plain: usize,
    pub last: usize,
    pub run: usize,
}

impl Walk {
    // No segment yet.
    pub(crate) const START: Walk = Walk {
        next: 0,
        packed: 0,
        plain: 0,
        last: 0,
        run: 0,
    };
}

// A segment that is met: its number, its entries, whether they are packed, and the pass after it, from route `from` on.
#[derive(Clone, Copy)]
pub(crate) struct Segment {
    pub x: usize,
    pub entries: [u16; BLOCK_SIZE],
    pub packed: bool,
    pub after: Walk,
    pub from: usize,
}

// The entry that names a block, by what pointers begin with and its number.
pub(crate) fn pointer_to(base: u32, number: usize) -> u16
    requires { (base ≤ 49152) × (number ≤ 4096) }
    ensures { result ≡ base + number }
{
    (base + number as u32) as u16
}

// In the entries of segment x, which are ports so far, names the last blocks that lie in it; they have the numbers from `lasts` on. All
// routes of the segment stand from number `from` on. Gives how many last blocks there are up to the segment's end.
fn name_lasts(
    list: &[u32],
    from: usize,
    x: usize,
    entries: &mut [u16; BLOCK_SIZE],
    lasts: usize,
) -> usize
    requires { Begun (route_at list.now) (route_count list.now) from x lasts entries.old }
    ensures { Pointed (route_at list.now) (route_count list.now) x result entries.new }
{
    let mut next = x * BLOCK_SIZE;
    let mut count = lasts;
    for i in from..list.len() / ROUTE_SIZE {
        let route = route_at(list, i);
        if x < block_of(route, 16) {
            return count;
        }
        if !begins_new(route, 24, next) {
            continue;
        }
        let block = block_of(route, 24);
        entries[block % BLOCK_SIZE] = pointer_to(POINTER, count);
        count += 1;
        next = block + 1;
    }
    count
}

// The pass after segment x, which has a number among the packed ones or among the plain ones.
fn walk_after(walk: Walk, x: usize, packed: bool, last: usize, run: usize) -> Walk
    requires { (x < 65536) × (walk.packed ≤ 4096) × (walk.plain ≤ 4096) }
    ensures { result ≡ walk_after walk x packed last run }
{
    if packed {
        return Walk {
            next: x + 1,
            packed: walk.packed + 1,
            last,
            run,
            ..walk
        };
    }
    Walk {
        next: x + 1,
        plain: walk.plain + 1,
        last,
        run,
        ..walk
    }
}

// Segment x, which route i is the first of the list to begin with and go on after.
fn segment_at(list: &[u32], runs: &[u32], i: usize, x: usize, walk: Walk) -> Segment
    requires { Met (route_at list.now) (route_count list.now) runs.now i x walk }
    ensures { SegmentMet (route_at list.now) (route_count list.now) runs.now i x walk result }
{
    let mut entries = [0u16; BLOCK_SIZE];
    let run = fill_ports(&mut entries, runs, walk.run, x * BLOCK_SIZE, 8);
    let last = name_lasts(list, i, x, &mut entries, walk.last);
    let packed = is_packed(&entries);
    let after = walk_after(walk, x, packed, last, run);
    Segment {
        x,
        entries,
        packed,
        after,
        from: i + 1,
    }
}

// The next segment, by the routes from number `from` on.
pub(crate) fn next_segment(list: &[u32], runs: &[u32], from: usize, walk: Walk) -> Option<Segment>
    requires { Ready (route_at list.now) (route_count list.now) runs.now × (from ≤ route_count list.now) × Walked (route_at list.now) (route_count list.now) runs.now from walk }
    ensures { MatchOption result (Walked (route_at list.now) (route_count list.now) runs.now (route_count list.now) walk) (λ s. NextSegment (route_at list.now) (route_count list.now) runs.now from walk s) }
{
    for i in from..list.len() / ROUTE_SIZE {
        let route = route_at(list, i);
        if begins_new(route, 16, walk.next) {
            return Some(segment_at(list, runs, i, block_of(route, 16), walk));
        }
    }
    None
}

// Goes through the segments and counts them, and the last blocks.
pub(crate) fn count_segments(list: &[u32], runs: &[u32]) -> Walk
    requires { Ready (route_at list.now) (route_count list.now) runs.now }
    ensures { Counted (route_at list.now) (route_count list.now) result }
{
    let mut walk = Walk::START;
    let mut i = 0;
    while let Some(s) = next_segment(list, runs, i, walk) {
        walk = s.after;
        i = s.from;
    }
    walk
}

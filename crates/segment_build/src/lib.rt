// The segment tables built from a list into four lent stores. The runs of the list tell the port of every address; a pass over its routes
// meets the segments and the last blocks in order.
#![tactic(auto)]

ghost use Rattle.std.specs.Prelude.{◌≡◌, ◌&&◌, ◌*◌, ◌≤◌, leb, length};
ghost use Rattle.routes.specs.Routes.{route_at, route_count};
ghost use Rattle.segment_rules.specs.Packed.{block_size, packed_size};
ghost use Rattle.segment_rules.specs.Tables.{first_size};
ghost use Rattle.segment_rules.specs.Build.{stores, left, built_of, segments_into, build_segments};
ghost use Rattle.segment_build.specs.Needs.{Ready};

use refusals::{Fault, Refusal};
use routes::MOST_ROUTES;
use runs_write::{RUN_SIZE, list_runs};
use segment_rules::{BLOCK_SIZE, FIRST_SIZE, PACKED_SIZE, Written};
use segments::{Walk, count_segments};
use stores::write_tables;

mod blocks;
mod segments;
mod stores;

// The words of as many runs as a list can have.
const RUNS_SIZE: usize = (2 * MOST_ROUTES + 1) * RUN_SIZE;

// Whether the stores, of so many words, have room for the blocks that are counted.
fn have_room(counts: Walk, packed: usize, plain: usize, last: usize) -> bool
    requires { (counts.packed ≤ 4096) × (counts.plain ≤ 4096) × (counts.last ≤ 4096) }
    ensures { result ≡ (leb (counts.packed * packed_size) packed && leb (counts.plain * block_size) plain && leb (counts.last * block_size) last) }
{
    (counts.packed * PACKED_SIZE <= packed)
        & (counts.plain * BLOCK_SIZE <= plain)
        & (counts.last * BLOCK_SIZE <= last)
}

// The tables of a list that is known to be valid, by its runs, where the first table has room. The blocks are counted first, so that a
// refusal writes nothing.
fn build_valid(
    list: &[u32],
    runs: &[u32],
    first: &mut [u16],
    packed: &mut [u16],
    plain: &mut [u16],
    last: &mut [u16],
) -> Result<Written, Refusal>
    requires { Ready (route_at list.now) (route_count list.now) runs.now × (first_size ≤ length first.old) }
    ensures { left (built_of result) (stores first.new packed.new plain.new last.new) ≡ segments_into (route_at list.now) (route_count list.now) (stores first.old packed.old plain.old last.old) }
{
    let counts = count_segments(list, runs);
    if have_room(counts, packed.len(), plain.len(), last.len()) {
        write_tables(list, runs, first, packed, plain, last);
        return Ok(Written {
            packed: counts.packed as u32,
            plain: counts.plain as u32,
            last: counts.last as u32,
        });
    }
    Err(Fault::NoRoom.at(0))
}

// The segment tables of a list, written into the four stores lent. Refuses as the check of the list does, then 9 at place 0 where a store is
// too short: the first table, the packed segments, the plain ones, the last blocks. The runs of the list are kept in some 96 KB of the
// stack.
pub fn build(
    list: &[u32],
    first: &mut [u16],
    packed: &mut [u16],
    plain: &mut [u16],
    last: &mut [u16],
) -> Result<Written, Refusal>
    ensures { left (built_of result) (stores first.new packed.new plain.new last.new) ≡ build_segments list.now (stores first.old packed.old plain.old last.old) }
{
    let mut runs = [0u32; RUNS_SIZE];
    // There is room for all runs that a list can have, so that this refuses a list that its check refuses, and no other.
    list_runs(list, &mut runs)?;
    if first.len() < FIRST_SIZE {
        return Err(Fault::NoRoom.at(0));
    }
    build_valid(list, &runs, first, packed, plain, last)
}

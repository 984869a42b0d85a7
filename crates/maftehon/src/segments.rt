// The segment tables: their build, their lookup, many lookups in one call, and where the entries of a segment stand.
ghost use Rattle.std.specs.Prelude.{◌≡◌, length};
ghost use Rattle.promise.specs.Over.{outcome};
ghost use Rattle.many_rules.specs.Many.{lookup_many};
ghost use Rattle.segment_rules.specs.Lookup.{lookup_in};
ghost use Rattle.segment_rules.specs.Parts.{part_of};
ghost use Rattle.segment_rules.specs.Build.{stores, build_segments};
ghost use Rattle.maftehon.specs.Reply.{segmented, replied_segments, located};
ghost use Rattle.refusals.specs.Reply.{reply, looked, replied};

use crate::replies::{blocked, located};
use refusals::Answer;
use refusals::found::Found;
use refusals::reply::{counted, looked};
use segment_entries::part_of;
use segment_rules::Built;

pub fn mft_segments_build(
    list: &[u32],
    first: &mut [u16],
    packed: &mut [u16],
    plain: &mut [u16],
    last: &mut [u16],
    answer: &mut [u32; 4],
) -> u32
    ensures { segmented (reply result answer.new) (stores first.new packed.new plain.new last.new) ≡ replied_segments (build_segments list.now (stores first.old packed.old plain.old last.old)) }
{
    blocked(
        Built::from(segment_build::build(list, first, packed, plain, last)),
        answer,
    )
}

pub fn mft_segments_lookup(
    first: &[u16],
    packed: &[u16],
    plain: &[u16],
    last: &[u16],
    address: u32,
    answer: &mut [u32; 3],
) -> u32
    ensures { reply result answer.new ≡ looked (lookup_in first.now packed.now plain.now last.now address) }
{
    looked(
        Found::from(segment_lookup::lookup(first, packed, plain, last, address)),
        answer,
    )
}

pub fn mft_segments_lookup_many(
    first: &[u16],
    packed: &[u16],
    plain: &[u16],
    last: &[u16],
    addresses: &[u32],
    out: &mut [u16],
    answer: &mut [u32; 2],
) -> u32
    ensures { outcome (reply result answer.new) out.new ≡ replied (lookup_many (lookup_in first.now packed.now plain.now last.now) addresses.now out.old) }
{
    counted(
        Answer::from(segment_lookup::many::lookup_many(first, packed, plain, last, addresses, out)),
        answer,
    )
}

pub fn mft_segments_entries(packed: &[u16], plain: &[u16], entry: u32, answer: &mut [u32; 3]) -> u32
    ensures { reply result answer.new ≡ located (part_of (length packed.now) (length plain.now) entry) }
{
    located(part_of(packed.len(), plain.len(), entry), answer)
}

// The debug page's call: where the entries of a segment stand, and those entries, on whatever stores are lent.
#![tactic(auto)]

ghost use Rattle.segment_entries.specs.Handed.{Placed, Handed};

use segment_rules::{BLOCK_SIZE, CODEWORDS, MOST_KEPT, PACKED_SIZE, PLAIN_POINTER, POINTER, Part};

// Where no entries stand.
const NO_PART: Part = Part {
    plain: false,
    from: 0,
    count: 0,
};

// Where the entries of a segment stand that an entry of the first table names, in stores of so many words: none where it names none, or
// its block is past its store.
pub fn part_of(packed: usize, plain: usize, entry: u32) -> Part
    ensures { Placed packed plain entry result }
{
    if entry < POINTER {
        return NO_PART;
    }
    if POINTER + POINTER <= entry {
        return NO_PART;
    }
    if PLAIN_POINTER <= entry {
        let from = (entry - PLAIN_POINTER) as usize * BLOCK_SIZE;
        if plain < from + BLOCK_SIZE {
            return NO_PART;
        }
        return Part {
            plain: true,
            from,
            count: BLOCK_SIZE,
        };
    }
    let from = (entry - POINTER) as usize * PACKED_SIZE;
    if packed < from + PACKED_SIZE {
        return NO_PART;
    }
    Part {
        plain: false,
        from: from + CODEWORDS,
        count: MOST_KEPT,
    }
}

// The entries themselves, where they stand: out of the plain store or the packed one, without copying.
pub fn entries<'a>(packed: &'a [u16], plain: &'a [u16], entry: u32) -> &'a [u16]
    ensures { Handed packed.entry plain.entry entry result }
{
    let p = part_of(packed.len(), plain.len(), entry);
    let from = p.from;
    let end = from + p.count;
    if p.plain {
        &plain[from..end]
    } else {
        &packed[from..end]
    }
}

// The segment tables of a list, the packed form of a segment, and the lookup on any stores: definitions and laws, and the little code that
// lookup and builder share.
#![tactic(auto)]

ghost use Rattle.std.specs.Prelude.{◌≡◌, ◌+◌, ◌%◌, ◌≤◌};
ghost use Rattle.bits.specs.Bitmap.{ones_before};
ghost use Rattle.segment_rules.specs.Build.{built_of};

use refusals::Refusal;

// Where the entries of a segment stand: in the plain store or in the packed one, from which word on, and how many.
#[derive(Clone, Copy)]
pub struct Part {
    pub plain: bool,
    pub from: usize,
    pub count: usize,
}

// What a build has written: how many packed segments, plain segments and last blocks there are.
#[derive(Clone, Copy, Debug, PartialEq, Eq)]
pub struct Written {
    pub packed: u32,
    pub plain: u32,
    pub last: u32,
}

// What C is told of a build: the refusal's number and place, both 0 where it is done, and the three counts.
#[derive(Clone, Copy)]
pub struct Built {
    pub number: u32,
    pub place: u32,
    pub packed: u32,
    pub plain: u32,
    pub last: u32,
}

impl From<Result<Written, Refusal>> for Built {
    ghost from_gives = { λ x built. built ≡ built_of x };

    fn from(x: Result<Written, Refusal>) -> Built {
        match x {
            Ok(w) => Built {
                number: 0,
                place: 0,
                packed: w.packed,
                plain: w.plain,
                last: w.last,
            },
            Err(r) => Built {
                number: u32::from(r.fault),
                place: r.place,
                packed: 0,
                plain: 0,
                last: 0,
            },
        }
    }
}

// The entries of a segment, of a plain block and of a last block.
pub const BLOCK_SIZE: usize = 256;

// The codewords of a packed block, the entries after them, and its words, which are both.
pub const CODEWORDS: usize = 32;

pub const MOST_KEPT: usize = 64;

pub const PACKED_SIZE: usize = 96;

// The entries of the first table.
pub const FIRST_SIZE: usize = 65536;

// An entry from here on names a block, by what it is above this: a packed segment in the first table, a last block in a segment.
pub const POINTER: u32 = 32768;

// From here on an entry of the first table names a plain segment.
pub const PLAIN_POINTER: u32 = 49152;

// The ones of a codeword's eight bits through that of entry i: the count of ones of the bits up to there.
pub fn ones_through(bits: u32, i: u32) -> u32
    ensures { (result ≡ ones_before 8 bits (i % 8 + 1)) × (result ≤ 32) }
{
    u32::count_ones(bits >> (7 - i % 8))
}

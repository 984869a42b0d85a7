// A segment stored in its block. Plain, that is its entries. Packed, it is its codewords with their bases, by value while the block is built
// and ranked, and the entries that have a one, each at its rank.
#![tactic(auto)]

ghost use Rattle.std.specs.Prelude.{◌≡◌, cond, ◌+◌, ◌*◌, ◌^◌, ◌≤◌, ◌<◌, length};
ghost use Rattle.promise.specs.Over.{over};
ghost use Rattle.lists.specs.Numbered.{list_of};
ghost use Rattle.segment_rules.specs.Packed.{codewords, packed_size, is_one, eight_bits, codeword, is_packed};
ghost use Rattle.segment_pack.specs.Pack.{codes_of, rank_of, pack_into, copy_into};
ghost use Rattle.segment_pack.specs.Needs.{Coded, CodedAt, packed_to};

use entries::fill;
use segment_rules::{BLOCK_SIZE, CODEWORDS, MOST_KEPT, PACKED_SIZE, ones_through};

// A codeword: its eight bits, and the ones before them.
#[derive(Clone, Copy)]
struct Code {
    bits: u16,
    base: u16,
}

// The bit of an entry: 1 if it is the first, or differs from the one before.
fn bit_of(entries: &[u16; BLOCK_SIZE], i: usize) -> u32
    requires { i < 256 }
    ensures { (result ≡ cond (is_one entries.now i) 1 0) × (result ≤ 1) }
{
    if i == 0 {
        return 1;
    }
    let before = i - 1;
    if entries[i] == entries[before] {
        return 0;
    }
    1
}

// Whether a segment is packed: it has at most 64 ones.
pub fn is_packed(entries: &[u16; BLOCK_SIZE]) -> bool
    ensures { result ≡ is_packed entries.now }
{
    let mut ones: u32 = 0;
    for i in 0..BLOCK_SIZE {
        ones += bit_of(entries, i);
    }
    ones as usize <= MOST_KEPT
}

// The bits of the eight entries of codeword c, the first of them highest.
fn eight_bits(entries: &[u16; BLOCK_SIZE], c: usize) -> u32
    requires { c < 32 }
    ensures { (result ≡ eight_bits entries.now c) × (result < 256) }
{
    let mut bits = 0;
    for j in 0..8 {
        bits = bits * 2 + bit_of(entries, c * 8 + j);
    }
    bits
}

// The codewords of a segment.
fn codes_of(entries: &[u16; BLOCK_SIZE]) -> [Code; CODEWORDS]
    ensures { result ≡ codes_of entries.now }
{
    let mut codes = [Code { bits: 0, base: 0 }; CODEWORDS];
    let mut ones: u32 = 0;
    for c in 0..CODEWORDS {
        let eight = eight_bits(entries, c);
        codes[c] = Code {
            bits: eight as u16,
            base: ones as u16,
        };
        ones += u32::count_ones(eight);
    }
    codes
}

// The base of the codeword of entry i, and the ones through its bit.
fn rank_of(code: Code, i: usize) -> usize
    requires { i < 256 }
    ensures { (result ≡ rank_of code i) × (result < 2 ^ 17) }
{
    (u32::from(code.base) + ones_through(u32::from(code.bits), i as u32)) as usize
}

// The codewords at the front of a block.
fn put_codes(block: &mut [u16], entries: &[u16; BLOCK_SIZE], codes: [Code; CODEWORDS])
    requires { Coded entries.now codes × (length block.old ≡ packed_size) }
    ensures { block.new ≡ over (list_of (codeword entries.now) codewords 0) block.old }
{
    for c in 0..CODEWORDS {
        let code = codes[c];
        block[c] = code.bits * 256 + code.base;
    }
}

// The entries of one codeword, each at its rank; one without a one of its own has the place, and the value, of the one before it.
fn put_eight(block: &mut [u16], entries: &[u16; BLOCK_SIZE], code: Code, c: usize)
    requires { CodedAt entries.now code c × (c < codewords) × (block.old ≡ packed_to entries.now (c * 8)) }
    ensures { block.new ≡ packed_to entries.now (c * 8 + 8) }
{
    for j in 0..8 {
        let i = c * 8 + j;
        let rank = rank_of(code, i);
        block[CODEWORDS + (rank - 1)] = entries[i];
    }
}

// The entries that have a one, after the codewords. A codeword without a one has none to keep.
fn put_entries(block: &mut [u16], entries: &[u16; BLOCK_SIZE], codes: [Code; CODEWORDS])
    requires { Coded entries.now codes × (block.old ≡ packed_to entries.now 0) }
    ensures { block.new ≡ packed_to entries.now 256 }
{
    for c in 0..CODEWORDS {
        let code = codes[c];
        if code.bits == 0 {
            continue;
        }
        put_eight(block, entries, code, c);
    }
}

// Packs a segment into a block of 96 words. A block of any other size, and any block where the segment has more than 64 ones, is left as
// it is.
pub fn pack(block: &mut [u16], entries: &[u16; BLOCK_SIZE])
    ensures { block.new ≡ pack_into entries.now block.old }
{
    if block.len() != PACKED_SIZE {
        return;
    }
    let codes = codes_of(entries);
    if MOST_KEPT < rank_of(codes[CODEWORDS - 1], BLOCK_SIZE - 1) {
        return;
    }
    put_codes(block, entries, codes);
    fill(block, CODEWORDS, PACKED_SIZE, 0);
    put_entries(block, entries, codes);
}

// Stores the entries of a segment in a plain block, of 256 words. A block of any other size is left as it is.
pub fn copy(block: &mut [u16], entries: &[u16; BLOCK_SIZE])
    ensures { block.new ≡ copy_into entries.now block.old }
{
    if block.len() != BLOCK_SIZE {
        return;
    }
    block.copy_from_slice(entries);
}

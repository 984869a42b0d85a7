// The lookup in segment tables, on whatever stores are lent: four words are read at most.
#![tactic(auto)]

ghost use Rattle.std.specs.Prelude.{◌≡◌, ◌+◌, ◌*◌, ◌%◌, ◌^◌, ◌≤◌, ◌<◌, length, Err};
ghost use Rattle.refusals.specs.Refusals.{not_in_order, lost, found_of};
ghost use Rattle.segment_rules.specs.Packed.{packed_size};
ghost use Rattle.segment_rules.specs.Lookup.{third, port_read, last_read, entry_read, rank, rank_read, packed_read, plain_read, first_read, lookup_in};

use refusals::Fault;
use refusals::found::{Lost, Reached};
use routes::LAST_PORT;
use segment_rules::{
    BLOCK_SIZE, CODEWORDS, FIRST_SIZE, MOST_KEPT, PACKED_SIZE, PLAIN_POINTER, POINTER, ones_through,
};

pub mod many;

// The third octet of an address.
fn third(address: u32) -> u32
    ensures { (result ≡ third address) × (result < 256) }
{
    address / 256 % 256
}

// A lookup in tables that are not as a build leaves them, after so many reads.
fn lost(reads: u32) -> Lost
    ensures { found_of (Err result) ≡ lost not_in_order reads }
{
    Lost {
        fault: Fault::NotInOrder,
        reads,
    }
}

// What a port answers. Refuses 11 where it is above 4094.
fn port_read(entry: u32, reads: u32) -> Result<Reached, Lost>
    ensures { found_of result ≡ port_read entry reads }
{
    if LAST_PORT < entry {
        return Err(lost(reads));
    }
    Ok(Reached { port: entry, reads })
}

// What last block b answers: its entry by the fourth octet is a port. Refuses 11 where the block is past its store.
fn last_read(last: &[u16], b: u32, address: u32, reads: u32) -> Result<Reached, Lost>
    requires { reads ≤ 3 }
    ensures { found_of result ≡ last_read last.now b address reads }
{
    let from = b as usize * BLOCK_SIZE;
    if last.len() < from + BLOCK_SIZE {
        return Err(lost(reads));
    }
    let at = from + (address % 256) as usize;
    port_read(u32::from(last[at]), reads + 1)
}

// What an entry of a segment answers: it is a port, or names a last block.
fn entry_read(last: &[u16], entry: u32, address: u32, reads: u32) -> Result<Reached, Lost>
    requires { reads ≤ 3 }
    ensures { found_of result ≡ entry_read last.now entry address reads }
{
    if entry < POINTER {
        return port_read(entry, reads);
    }
    last_read(last, entry - POINTER, address, reads)
}

// The rank of entry i by its codeword: the base, and the ones through the entry's bit.
fn rank(code: u32, i: u32) -> usize
    ensures { (result ≡ rank code (i % 8)) × (result < 2 ^ 32) }
{
    (code % 256 + ones_through(code / 256, i)) as usize
}

// The rank in packed block b of the entry by the third octet: its codeword is read.
fn rank_read(packed: &[u16], b: u32, address: u32) -> usize
    requires { b * packed_size + packed_size ≤ length packed.now }
    ensures { (result ≡ rank_read packed.now b address) × (result < 2 ^ 32) }
{
    let i = third(address);
    let at = b as usize * PACKED_SIZE + (i / 8) as usize;
    rank(u32::from(packed[at]), i)
}

// What packed block b answers. Refuses 11 where it is past its store, and where the rank is that of none of its 64 entries.
fn packed_read(packed: &[u16], last: &[u16], b: u32, address: u32) -> Result<Reached, Lost>
    ensures { found_of result ≡ packed_read packed.now last.now b address }
{
    let from = b as usize * PACKED_SIZE;
    if packed.len() < from + PACKED_SIZE {
        return Err(lost(1));
    }
    let rank = rank_read(packed, b, address);
    if rank == 0 {
        return Err(lost(2));
    }
    if MOST_KEPT < rank {
        return Err(lost(2));
    }
    let at = from + (CODEWORDS + (rank - 1));
    entry_read(last, u32::from(packed[at]), address, 3)
}

// What plain block b answers. Refuses 11 where it is past its store.
fn plain_read(plain: &[u16], last: &[u16], b: u32, address: u32) -> Result<Reached, Lost>
    ensures { found_of result ≡ plain_read plain.now last.now b address }
{
    let from = b as usize * BLOCK_SIZE;
    if plain.len() < from + BLOCK_SIZE {
        return Err(lost(1));
    }
    let at = from + third(address) as usize;
    entry_read(last, u32::from(plain[at]), address, 2)
}

// What an entry of the first table answers: it is a port, or names a packed segment or a plain one.
fn first_read(
    packed: &[u16],
    plain: &[u16],
    last: &[u16],
    entry: u32,
    address: u32,
) -> Result<Reached, Lost>
    ensures { found_of result ≡ first_read packed.now plain.now last.now entry address }
{
    if entry < POINTER {
        return port_read(entry, 1);
    }
    if entry < PLAIN_POINTER {
        return packed_read(packed, last, entry - POINTER, address);
    }
    plain_read(plain, last, entry - PLAIN_POINTER, address)
}

// The port of an address and the words read, at most four. Refuses 11 at place 0, with the reads so far: for a first table under 65,536
// entries, a port above 4094, a block past its store, and a packed index that is none of 0..63.
pub fn lookup(
    first: &[u16],
    packed: &[u16],
    plain: &[u16],
    last: &[u16],
    address: u32,
) -> Result<Reached, Lost>
    ensures { found_of result ≡ lookup_in first.now packed.now plain.now last.now address }
{
    if first.len() < FIRST_SIZE {
        return Err(lost(0));
    }
    let at = (address / 65536) as usize;
    first_read(packed, plain, last, u32::from(first[at]), address)
}

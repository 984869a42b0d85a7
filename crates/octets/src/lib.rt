// Numbers as big-endian bytes, and a prefix as one length byte and the fewest bytes that hold it, read and written at an offset.
#![tactic(auto)]

ghost use Rattle.std.specs.Prelude.{◌≡◌, ◌+◌, ◌-◌, ◌^◌, ◌≤◌, ◌<◌, min, leb, length};
ghost use Rattle.bits.specs.Prefix.{first};
ghost use Rattle.octets.specs.Bytes.{digits};
ghost use Rattle.octets.specs.Octets.{prefix_size, len_at, value_from, prefix_from, prefix_octets, stored, put_at, prefix_put};
ghost use Rattle.octets.specs.Gives.{BytesFor, SizeFor, ByteIs, NumberAt};
ghost use Rattle.octets.specs.Taken.{taken_at};

use prefix::Prefix;

// The fewest bytes that hold that many bits: none for a prefix of length 0.
pub fn prefix_bytes(len: u32) -> usize
    ensures { BytesFor len result }
{
    ((len as u64 + 7) / 8) as usize
}

// The bytes of a prefix: its length, and those that hold it.
pub fn prefix_size(len: u32) -> usize
    ensures { SizeFor len result }
{
    prefix_bytes(len) + 1
}

// A byte as a number.
fn wide(b: u8) -> u64
    ensures { ByteIs b result }
{
    u64::from(b)
}

// A number, or `most` where it is larger.
fn up_to(most: usize, x: usize) -> usize
    ensures { (result ≡ min x most) × (result ≤ most) }
{
    x.min(most)
}

// Whether k bytes from an offset on are all among so many.
fn are_there(count: usize, from: usize, k: usize) -> bool
    ensures { result ≡ leb (from + k) count }
{
    if count < k {
        return false;
    }
    from <= count - k
}

// How many bytes there are from an offset on.
fn left_from(bytes: &[u8], from: usize) -> usize
    ensures { result ≡ length bytes.now - from }
{
    bytes.len().saturating_sub(from)
}

// The number that k bytes write, big-endian, where they are all there.
fn number_of(bytes: &[u8], from: usize, k: usize) -> u64
    requires { (k ≤ length bytes.now - from) × (k ≤ 4) }
    ensures { NumberAt bytes.now from k result }
{
    let mut sum: u64 = 0;
    for j in 0..k {
        sum = sum * 256 + wide(bytes[from + j]);
    }
    sum
}

// The number that k bytes write, big-endian: of more than four the first four, and of those the ones that are there.
pub fn number_at(bytes: &[u8], from: usize, k: usize) -> u64
    ensures { NumberAt bytes.now from (min k 4) result }
{
    let left = left_from(bytes, from);
    let most = up_to(4, k);
    // By two calls: where k is a constant, so is the number of turns in the second.
    if left < most {
        return number_of(bytes, from, left);
    }
    number_of(bytes, from, most)
}

// The length byte of the prefix at an offset; 0 past the end.
pub fn length_at(bytes: &[u8], at: usize) -> u32
    ensures { ByteIs (len_at bytes.now at) result }
{
    if at < bytes.len() {
        wide(bytes[at]) as u32
    } else {
        0
    }
}

// The bytes of a value with all that is past the length cleared. Nothing else decides what becomes of spare bits.
fn clear_past(high: u64, len: u32) -> u32
    requires { (high < 2 ^ 32) × (len ≤ 32) }
    ensures { result ≡ first 32 high len }
{
    let past = (32 - len) as usize;
    ((high >> past) << past) as u32
}

// The value of a prefix from its bytes, its spare bits cleared.
fn value_from(bytes: &[u8], from: usize, len: u32) -> u32
    requires { len ≤ 32 }
    ensures { result ≡ first 32 (value_from 32 bytes.now from len) len }
{
    let left = left_from(bytes, from);
    // Four bytes at once where there are so many, and those past the prefix cleared too: no loop whose end must be guessed.
    if 4 <= left {
        return clear_past(number_of(bytes, from, 4), len);
    }
    let k = prefix_bytes(len);
    let high = number_of(bytes, from, up_to(left, k));
    clear_past(high << (32 - 8 * k), len)
}

// The prefix of a length from its bytes, or from those of them that are there. A length above 32 counts as 32.
pub fn prefix_from(bytes: &[u8], from: usize, len: u32) -> Prefix
    ensures { result ≡ prefix_from 32 bytes.now from (min len 32) }
{
    let bits = up_to(32, len as usize) as u32;
    let value = value_from(bytes, from, bits);
    Prefix { value, len: bits }
}

// Why no prefix stands at an offset of some bytes: its length byte is above 32, or it runs past the end.
#[derive(Clone, Copy, Debug, PartialEq, Eq)]
pub enum NoPrefix {
    Long,
    Cut,
}

// The prefix at an offset of any bytes, or why there is none. At the end of the bytes and past it, a prefix is cut.
pub fn take_prefix(bytes: &[u8], at: usize) -> Result<Prefix, NoPrefix>
    ensures { result ≡ taken_at 32 bytes.now at }
{
    if bytes.len() <= at {
        return Err(NoPrefix::Cut);
    }
    let len = length_at(bytes, at);
    if 32 < len {
        return Err(NoPrefix::Long);
    }
    if bytes.len() < at + prefix_size(len) {
        return Err(NoPrefix::Cut);
    }
    Ok(prefix_from(bytes, at + 1, len))
}

// Stores the last k bytes of a number, big-endian, from an offset on, where there is room for them.
fn store_number(bytes: &mut [u8], at: usize, k: usize, x: u64)
    requires { (at + k ≤ length bytes.old) × (k ≤ 4) }
    ensures { bytes.new ≡ stored bytes.old at (digits k x) }
{
    for j in 0..k {
        let gap = 8 * (k - 1 - j);
        bytes[at + j] = ((x >> gap) % 256) as u8;
    }
}

// Stores the last k bytes of a number, four at most, big-endian, from an offset on; none where there is no room for them.
pub fn put_number(bytes: &mut [u8], at: usize, k: usize, x: u64)
    ensures { bytes.new ≡ put_at bytes.old at (digits (min k 4) x) }
{
    let most = up_to(4, k);
    if are_there(bytes.len(), at, most) {
        store_number(bytes, at, most, x);
    }
}

// Stores a prefix from an offset on, where there is room for it: its length, and the bytes that hold it.
fn store_prefix(bytes: &mut [u8], at: usize, p: Prefix)
    requires { (at + prefix_size p.len ≤ length bytes.old) × (p.len ≤ 32) }
    ensures { bytes.new ≡ stored bytes.old at (prefix_octets 32 p.value p.len) }
{
    let k = prefix_bytes(p.len);
    let gap = 32 - 8 * k;
    store_number(bytes, at, 1, p.len as u64);
    store_number(bytes, at + 1, k, (p.value as u64) >> gap);
}

// Stores a prefix from an offset on; nothing where there is no room for it, or its length is above 32.
pub fn put_prefix(bytes: &mut [u8], at: usize, p: Prefix)
    ensures { bytes.new ≡ prefix_put 32 bytes.old at p.value p.len }
{
    let len = p.len;
    if 32 < len {
        return;
    }
    if are_there(bytes.len(), at, prefix_size(len)) {
        store_prefix(bytes, at, p);
    }
}

// The table: lookup and the check of good order, on any lent rows.
#![tactic(auto)]

ghost use Rattle.std.specs.Prelude.{◌≡◌, cond};
ghost use Rattle.refusals.specs.Refusals.{checked, found_of};
ghost use Rattle.table_rules.specs.Rows.{child};
ghost use Rattle.table_rows.specs.Words.{capacity, row_at};
ghost use Rattle.table_rules.specs.Check.{is_good};
ghost use Rattle.table_rules.specs.Lookup.{wrong_row, row_matches, lookup_in};
ghost use Rattle.bits.specs.Bits.{bit_before};
ghost use Rattle.bits.specs.Prefix.{matches};
ghost use Rattle.table_lookup.specs.Good.{table_check};

use good::seen_at;
use prefix::{Prefix, bit_before};
use refusals::found::{Lost, Reached};
use refusals::{Fault, Refusal};
use table_rows::{capacity_of, prefix_of, whole_row};
use table_rules::Row;

mod good;

// Whether a value begins with the first (depth) bits of the address: the prefixes of that length around both begin at one address.
fn on_path(value: u32, address: u32, depth: u32) -> bool
    ensures { result ≡ matches 32 address depth value }
{
    Prefix::new(value, depth).first() == Prefix::new(address, depth).first()
}

// Whether a row read at a depth is wrong for the address: a child number n or more, a length above 32 or below the depth, bits
// past the length, a port outside 1..4094, or a prefix that differs from the address in the first (depth) bits.
pub(crate) fn is_wrong(x: Row, n: u32, address: u32, depth: u32) -> bool
    ensures { result ≡ wrong_row 32 x n address depth }
{
    // Returned at once, so that what follows has a length of at most 32: that makes its shifts cheap.
    if (n <= x.left) | (n <= x.right) | (32 < x.len) | (x.len < depth) {
        return true;
    }
    !prefix_of(x).is_clear() | !routes::is_port(x.port) | !on_path(x.value, address, depth)
}

// Whether the row's prefix matches the address.
fn row_matches(x: Row, address: u32) -> bool
    ensures { result ≡ row_matches 32 x address }
{
    prefix_of(x).matches(address)
}

// The best port, once the row is read and its match test asked.
fn better(x: Row, matched: bool, best: u32) -> u32
    ensures { result ≡ cond matched x.port best }
{
    if matched { x.port } else { best }
}

// The child that the address's bit names, where k bits come after it.
fn child_on(x: Row, address: u32, k: u32) -> u32
    ensures { result ≡ child x (bit_before address k) }
{
    if bit_before(address, k) {
        x.right
    } else {
        x.left
    }
}

// The port of the longest route that matches the address, 0 if none does, and the rows read. On any rows; refuses 11 where n
// exceeds the capacity, and where a row read is wrong, with the rows read so far.
pub fn lookup(rows: &[u32], n: u32, address: u32) -> Result<Reached, Lost>
    ensures { found_of result ≡ lookup_in 32 (capacity rows.now) (row_at rows.now) n address }
{
    if capacity_of(rows) < n {
        return Err(Lost {
            fault: Fault::NotInOrder,
            reads: 0,
        });
    }
    if n == 0 {
        return Ok(Reached { port: 0, reads: 0 });
    }
    let mut row: u32 = 0;
    let mut best: u32 = 0;
    for depth in 0..33 {
        let x = whole_row(rows, row);
        let reads = depth + 1;
        if is_wrong(x, n, address, depth) {
            return Err(Lost {
                fault: Fault::NotInOrder,
                reads,
            });
        }
        let matched = row_matches(x, address);
        if matched & (depth < x.len) {
            return Ok(Reached {
                port: x.port,
                reads,
            });
        }
        // An ordinary match does not end the search: a longer route may lie below it.
        best = better(x, matched, best);
        // At depth 32 no bit is left and no row is read after this one, whichever child that names.
        row = child_on(x, address, 31u32.wrapping_sub(depth));
        if row == 0 {
            return Ok(Reached { port: best, reads });
        }
    }
    Ok(Reached {
        port: best,
        reads: 33,
    })
}

// Whether a table of n rows is in good order.
pub fn is_good(rows: &[u32], n: u32) -> bool
    ensures { result ≡ is_good 32 (capacity rows.now) (row_at rows.now) n }
{
    if capacity_of(rows) < n {
        return false;
    }
    if n == 0 {
        return true;
    }
    match seen_at(rows, n, Prefix::WHOLE, 0) {
        Some(seen) => seen.rows == n as u64,
        None => false,
    }
}

// Checks that a table of n rows is in good order. Refuses 11, at place 0, exactly where it is not.
pub fn check(rows: &[u32], n: u32) -> Result<(), Refusal>
    ensures { checked result ≡ table_check 32 (capacity rows.now) (row_at rows.now) n }
{
    if is_good(rows, n) {
        Ok(())
    } else {
        Err(Fault::NotInOrder.at(0))
    }
}

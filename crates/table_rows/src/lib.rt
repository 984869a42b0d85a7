// Where a row lies in the lent words: five words a row, value, length, port, left row, right row. Nothing else says so.
#![tactic(auto)]

ghost use Rattle.std.specs.Prelude.{◌≡◌, ◌<◌};
ghost use Rattle.prefix.specs.Prefixes.{prefix};
ghost use Rattle.table_rules.specs.Rows.{route_of};
ghost use Rattle.table_rows.specs.Words.{row_count, capacity, row_at, store_row};

use prefix::Prefix;
use routes::{MOST_ROUTES, Route};
use table_rules::Row;

// The words of a row.
pub const ROW_SIZE: usize = 5;

// The smaller of 4,096 and the number of whole rows lent.
pub fn capacity_of(rows: &[u32]) -> u32
    ensures { result ≡ capacity rows.now }
{
    let whole = rows.len() / ROW_SIZE;
    if whole < MOST_ROUTES {
        whole as u32
    } else {
        MOST_ROUTES as u32
    }
}

// Row r, which is lent whole: for walks that have tested the number themselves.
pub fn whole_row(rows: &[u32], r: u32) -> Row
    requires { r < row_count rows.now }
    ensures { result ≡ row_at rows.now r }
{
    let at = r as usize * ROW_SIZE;
    Row {
        value: rows[at],
        len: rows[at + 1],
        port: rows[at + 2],
        left: rows[at + 3],
        right: rows[at + 4],
    }
}

// Row r; zeros where it is not lent whole.
pub fn row_at(rows: &[u32], r: u32) -> Row
    ensures { result ≡ row_at rows.now r }
{
    if (r as usize) < rows.len() / ROW_SIZE {
        whole_row(rows, r)
    } else {
        Row::default()
    }
}

// Stores row r, where it is lent whole; no other word changes.
pub fn store_row(rows: &mut [u32], r: u32, x: Row)
    ensures { rows.new ≡ store_row rows.old r x }
{
    if (r as usize) < rows.len() / ROW_SIZE {
        let at = r as usize * ROW_SIZE;
        rows[at] = x.value;
        rows[at + 1] = x.len;
        rows[at + 2] = x.port;
        rows[at + 3] = x.left;
        rows[at + 4] = x.right;
    }
}

// A row's prefix.
pub fn prefix_of(x: Row) -> Prefix
    ensures { result ≡ prefix x.value x.len }
{
    Prefix::new(x.value, x.len)
}

// A row's route.
pub fn route_of(x: Row) -> Route
    ensures { result ≡ route_of x }
{
    Route {
        value: x.value,
        len: x.len,
        port: x.port,
    }
}

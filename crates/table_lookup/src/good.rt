// The walk of the check of good order: it reads each row at its path and marks nothing.
ghost use Rattle.std.specs.Prelude.{◌≡◌, ◌-◌, ◌^◌, ◌<◌, ◌≤◌};
ghost use Rattle.bits.specs.Prefix.{Valid};
ghost use Rattle.table_rows.specs.Words.{row_count, row_at};
ghost use Rattle.table_rules.specs.Check.{first_seen, seen_over, seen_join, seen_at};
ghost use Rattle.table_rules.specs.Walk.{last_seen, seen_below};
ghost use Rattle.table_lookup.specs.Below.{seen_of, seen_in};

use crate::is_wrong;
use prefix::Prefix;
use table_rows::{prefix_of, whole_row};
use table_rules::Row;

// What a subtree is, where nothing is wrong in it: how many rows, and the prefix of the one that goes first, if there is any.
#[derive(Clone, Copy)]
pub(crate) struct Below {
    pub(crate) rows: u64,
    pub(crate) best: Prefix,
}

const NO_ROWS: Below = Below {
    rows: 0,
    best: Prefix::WHOLE,
};

// Of two subtrees, the one whose best goes first; one without rows never does.
fn first_seen(a: Below, b: Below) -> Below
    ensures { seen_of result ≡ first_seen (seen_of a) (seen_of b) }
{
    if b.rows == 0 {
        return a;
    }
    if a.rows == 0 {
        return b;
    }
    if b.best.is_ahead(a.best) { b } else { a }
}

// A row over all that is below it. A priority node must be strictly ahead of the best below; an ordinary one hands that up.
fn seen_over(x: Row, depth: u32, rows: u64, first: Below) -> Option<Below>
    ensures { seen_in result ≡ seen_over x depth rows (seen_of first) }
{
    let own = prefix_of(x);
    if first.rows == 0 {
        return Some(Below { rows, best: own });
    }
    if depth < x.len {
        if own.is_ahead(first.best) {
            return Some(Below { rows, best: own });
        }
        return None;
    }
    Some(Below {
        rows,
        best: first.best,
    })
}

// A row and its two subtrees.
fn seen_join(x: Row, depth: u32, left: Below, right: Below) -> Option<Below>
    requires { (left.rows < 2 ^ 32) × (right.rows < 2 ^ 32) }
    ensures { seen_in result ≡ seen_join x depth (seen_of left) (seen_of right) }
{
    seen_over(
        x,
        depth,
        left.rows + right.rows + 1,
        first_seen(left, right),
    )
}

// A row at the full depth, which has no children.
fn last_seen(x: Row) -> Option<Below>
    ensures { seen_in result ≡ last_seen x }
{
    if (x.left != 0) | (x.right != 0) {
        return None;
    }
    Some(Below {
        rows: 1,
        best: prefix_of(x),
    })
}

// What the rows from `row` on are, at a path; nothing where one is wrong. Stops at the first fault, so it reads no row twice at one
// depth.
#[cycle(seen_at_seen_below)]
pub(crate) fn seen_at(rows: &[u32], n: u32, path: Prefix, row: u32) -> Option<Below>
    requires { (row < n) × (n ≤ row_count rows.now) × Valid 32 path.value path.len }
    ensures { seen_in result ≡ seen_at 32 (row_at rows.now) n (32 - path.len) path.value row }
{
    let x = whole_row(rows, row);
    if is_wrong(x, n, path.value, path.len) {
        return None;
    }
    if path.len == 32 {
        return last_seen(x);
    }
    let left = seen_below(rows, n, path.left(), x.left)?;
    let right = seen_below(rows, n, path.right(), x.right)?;
    seen_join(x, path.len, left, right)
}

// The rows below a row on one side; 0 as a child means none.
#[cycle(seen_at_seen_below)]
fn seen_below(rows: &[u32], n: u32, path: Prefix, child: u32) -> Option<Below>
    requires { (child < n) × (n ≤ row_count rows.now) × Valid 32 path.value path.len }
    ensures { seen_in result ≡ seen_below 32 (row_at rows.now) n (32 - path.len) path.value child }
{
    if child == 0 {
        return Some(NO_ROWS);
    }
    seen_at(rows, n, path, child)
}

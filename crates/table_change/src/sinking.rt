// Announce, inside a table in good order: a route sinks to its place.
ghost use Rattle.std.specs.Prelude.{◌≡◌, ◌<◌};
ghost use Rattle.table_rows.specs.Words.{five_words};
ghost use Rattle.table_rules.specs.Announce.{sink, held_at, is_held, announced};
ghost use Rattle.table_change.specs.Plan.{plan_by, plan_of, leaf_into};

use crate::place::{child_of, is_same, leaf_row, outranks_row, with_child, with_route};
use prefix::bit_before;
use routes::Route;
use table_rows::{route_of, row_at, store_row};
use table_rules::Row;

// What a route that sinks past a row does there: the row with its new holder, and what goes on down, with its side and child.
#[derive(Clone, Copy)]
pub struct Plan {
    pub upper: Row,
    pub lower: Route,
    pub right: bool,
    pub child: u32,
}

// One route holds the row's place and the other goes on down, with `left` bits of the address after the next one.
fn plan_with(x: Row, holder: Route, lower: Route, left: u32) -> Plan
    requires { left < 32 }
    ensures { result ≡ plan_by x left holder lower }
{
    let right = bit_before(lower.value, left);
    Plan {
        upper: with_route(x, holder),
        lower,
        right,
        child: child_of(x, right),
    }
}

// At depth 31 - left. Two ways, and no choice of words: mostly the row keeps its holder, and a processor that guesses so need not wait for
// the comparison.
fn plan_for(x: Row, q: Route, left: u32) -> Plan
    requires { left < 32 }
    ensures { result ≡ plan_of 32 x q left }
{
    if outranks_row(31 - left, q, x) {
        return plan_with(x, q, route_of(x), left);
    }
    plan_with(x, route_of(x), q, left)
}

// The new place gets row n, and its parent names it.
fn add_leaf(rows: &mut [u32], n: u32, row: u32, plan: Plan)
    ensures { rows.new ≡ leaf_into five_words rows.old n row plan }
{
    store_row(rows, row, with_child(plan.upper, plan.right, n));
    store_row(rows, n, leaf_row(plan.lower));
}

// Whether the rows hold the route's prefix. A place that it would take itself has it nowhere below.
pub(crate) fn held_from_root(rows: &[u32], q: Route) -> bool
    ensures { result ≡ held_at 32 (five_words.get rows.now) 32 0 q }
{
    let mut row: u32 = 0;
    for left in (0..32).rev() {
        let x = row_at(rows, row);
        if is_same(q, x) {
            return true;
        }
        if outranks_row(31 - left, q, x) {
            return false;
        }
        row = child_of(x, bit_before(q.value, left));
        if row == 0 {
            return false;
        }
    }
    is_same(q, row_at(rows, row))
}

// The route sinks from the root to its place; a new place gets row n.
pub(crate) fn sink_from_root(rows: &mut [u32], n: u32, route: Route)
    ensures { rows.new ≡ sink five_words 32 32 rows.old n 0 route }
{
    let mut q = route;
    let mut row: u32 = 0;
    for left in (0..32).rev() {
        let x = row_at(rows, row);
        if is_same(q, x) {
            store_row(rows, row, with_route(x, q));
            return;
        }
        let plan = plan_for(x, q, left);
        if plan.child == 0 {
            add_leaf(rows, n, row, plan);
            return;
        }
        store_row(rows, row, plan.upper);
        q = plan.lower;
        row = plan.child;
    }
    let x = row_at(rows, row);
    if is_same(q, x) {
        store_row(rows, row, with_route(x, q));
    }
}

// Whether a table of n routes holds the route's prefix.
pub fn is_held(rows: &[u32], n: u32, q: Route) -> bool
    ensures { result ≡ is_held 32 (five_words.get rows.now) n q }
{
    if n == 0 {
        return false;
    }
    held_from_root(rows, q)
}

// The rows of a table of n routes with the route; a new prefix gets row n.
pub fn put_route(rows: &mut [u32], n: u32, q: Route)
    ensures { rows.new ≡ announced five_words 32 rows.old n q }
{
    if n == 0 {
        store_row(rows, 0, leaf_row(q));
        return;
    }
    sink_from_root(rows, n, q);
}

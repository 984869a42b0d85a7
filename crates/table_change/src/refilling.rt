// Withdraw, inside a table in good order: the place that a route leaves is filled from below, down to a leaf that falls away.
ghost use Rattle.std.specs.Prelude.{◌≡◌, ◌-◌, ◌<◌, ◌≤◌};
ghost use Rattle.table_rows.specs.Words.{five_words};
ghost use Rattle.table_rules.specs.Withdraw.{or_route, first_route, best_child, best_below, is_last, zero_row, cut, relink, move_row, close_gap, withdrawn};
ghost use Rattle.routes.specs.Routes.{no_route};
ghost use Rattle.table_change.specs.Refill.{refill_of, refill_at, cut_as};

use crate::place::{child_of, is_same, leaf_row, with_child, with_route};
use prefix::bit_before;
use routes::Route;
use table_rows::{route_of, row_at, store_row};
use table_rules::Row;

// The first route, and the second where that is none.
fn or_route(a: Route, b: Route) -> Route
    ensures { result ≡ or_route a b }
{
    if a.port == 0 { b } else { a }
}

// Of two routes, either of which may be none, the one that goes first: the longer, then the smaller value.
fn first_route(a: Route, b: Route) -> Route
    ensures { result ≡ first_route a b }
{
    if b.port == 0 {
        return a;
    }
    if a.port == 0 {
        return b;
    }
    if b.prefix().is_ahead(a.prefix()) {
        b
    } else {
        a
    }
}

// The best route of all from a child on, with `left` bits below it; none where there is no child.
fn best_child(rows: &[u32], left: u32, child: u32) -> Route
    requires { left ≤ 32 }
    ensures { result ≡ best_child 32 (five_words.get rows.now) left child }
{
    if child == 0 {
        return Route::NONE;
    }
    let x = row_at(rows, child);
    if left == 0 {
        return route_of(x);
    }
    // A priority node is the best of its own; an ordinary one may hide a longer one.
    if 32 - left < x.len {
        return route_of(x);
    }
    let a = best_child(rows, left - 1, x.left);
    let b = best_child(rows, left - 1, x.right);
    or_route(first_route(a, b), route_of(x))
}

// Whether the row is a leaf that holds the route.
fn is_last(q: Route, x: Row) -> bool
    ensures { result ≡ is_last q x }
{
    is_same(q, x) & (x.left == 0) & (x.right == 0)
}

// What becomes of a place on the way: who holds it now, and what is to go from below, with its side and child.
#[derive(Clone, Copy)]
pub struct Refill {
    pub holder: Route,
    pub taken: Route,
    pub right: bool,
    pub child: u32,
}

fn refill_with(x: Row, left: u32, holder: Route, taken: Route) -> Refill
    requires { left < 32 }
    ensures { result ≡ refill_of x left holder taken }
{
    let right = bit_before(taken.value, left);
    Refill {
        holder,
        taken,
        right,
        child: child_of(x, right),
    }
}

// Where the row holds the route, the best of everything below takes its place and is itself to go; else the row keeps its own.
fn refill_for(rows: &[u32], left: u32, x: Row, q: Route) -> Refill
    requires { left < 32 }
    ensures { result ≡ refill_at 32 (five_words.get rows.now) x left q }
{
    if is_same(q, x) {
        let a = best_child(rows, left, x.left);
        let b = best_child(rows, left, x.right);
        let best = first_route(a, b);
        return refill_with(x, left, best, best);
    }
    refill_with(x, left, route_of(x), q)
}

// Takes the route out of the rows from `row` on, with `left` bits below it, where `row` is no leaf that holds it: refills the
// place, and goes on at the deeper place that it took from. Gives the row that fell away.
fn cut_from(rows: &mut [u32], left: u32, row: u32, q: Route) -> u32
    requires { left ≤ 32 }
    ensures { cut_as rows.new result ≡ cut five_words 32 left rows.old row q }
{
    if left == 0 {
        return row;
    }
    let x = row_at(rows, row);
    let step = refill_for(rows, left - 1, x, q);
    let child = step.child;
    let taken = step.taken;
    let held = with_route(x, step.holder);
    if is_last(taken, row_at(rows, child)) {
        store_row(rows, row, with_child(held, step.right, 0));
        return child;
    }
    store_row(rows, row, held);
    cut_from(rows, left - 1, child, taken)
}

// The parent of row `last`, on the way of its value, now names row `freed`.
fn relink_from_root(rows: &mut [u32], value: u32, last: u32, freed: u32)
    ensures { rows.new ≡ relink five_words 32 32 rows.old 0 value last freed }
{
    let mut row: u32 = 0;
    for left in (0..32).rev() {
        let x = row_at(rows, row);
        let right = bit_before(value, left);
        let child = child_of(x, right);
        if child == last {
            store_row(rows, row, with_child(x, right, freed));
            return;
        }
        row = child;
    }
}

// Row `last` moves to the freed number, and its parent follows.
fn move_row(rows: &mut [u32], last: u32, freed: u32)
    ensures { rows.new ≡ move_row five_words 32 rows.old last freed }
{
    let x = row_at(rows, last);
    relink_from_root(rows, x.value, last, freed);
    let moved = row_at(rows, last);
    store_row(rows, freed, moved);
}

// The rows of a table of n routes without the route, which it holds.
pub fn take_route(rows: &mut [u32], n: u32, q: Route)
    ensures { rows.new ≡ withdrawn five_words 32 rows.old n q }
{
    if 1 < n {
        let freed = cut_from(rows, 32, 0, q);
        close_gap(rows, n - 1, freed);
        return;
    }
    store_row(rows, 0, leaf_row(Route::NONE));
}

// Row `last` fills the freed number where that is another, and is then five zeros.
fn close_gap(rows: &mut [u32], last: u32, freed: u32)
    ensures { rows.new ≡ close_gap five_words 32 (cut_as rows.old freed) last }
{
    if freed == last {
        store_row(rows, last, leaf_row(Route::NONE));
        return;
    }
    move_row(rows, last, freed);
    store_row(rows, last, leaf_row(Route::NONE));
}

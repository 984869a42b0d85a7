// A route put into its place among routes of a list that ascend, which leave one place free. Only the routes between that place and the free
// one move, by one.
#![tactic(auto)]

ghost use Rattle.std.specs.Prelude.{◌≡◌, ◌+◌, ◌-◌, ◌*◌, ◌<◌, ◌≤◌, length};
ghost use Rattle.bits.specs.Prefix.{precedes};
ghost use Rattle.routes.specs.Routes.{route_at, store_route};
ghost use Rattle.list_insert.specs.Insertion.{sunk, risen, all_before, placed, inserted};

use routes::{ROUTE_SIZE, Route};

// Whether a route stands before another in a list.
fn stands_before(a: Route, b: Route) -> bool
    ensures { result ≡ precedes a.value a.len b.value b.len }
{
    a.prefix().precedes(b.prefix())
}

// Route i of a list, which is lent whole. The tests of `routes::route_at` and `routes::store_route` made a saving a fifth slower.
fn whole_route(list: &[u32], i: usize) -> Route
    requires { i * 3 + 3 ≤ length list.now }
    ensures { result ≡ route_at list.now i }
{
    let at = i * ROUTE_SIZE;
    Route {
        value: list[at],
        len: list[at + 1],
        port: list[at + 2],
    }
}

// Stores route i of a list, which is lent whole; no other word changes.
fn store_whole(list: &mut [u32], i: usize, r: Route)
    requires { i * 3 + 3 ≤ length list.old }
    ensures { list.new ≡ store_route list.old i r }
{
    let at = i * ROUTE_SIZE;
    list[at] = r.value;
    list[at + 1] = r.len;
    list[at + 2] = r.port;
}

// Puts a route into its place among the routes from `at` up to `end`, which is free: each that stands after it moves up by one.
fn sink_route(list: &mut [u32], at: usize, end: usize, q: Route)
    requires { (at ≤ end) × (end * 3 + 3 ≤ length list.old) }
    ensures { list.new ≡ sunk list.old at (end - at) q }
{
    for i in (at..end).rev() {
        let before = whole_route(list, i);
        if stands_before(before, q) {
            store_whole(list, i + 1, q);
            return;
        }
        store_whole(list, i + 1, before);
    }
    store_whole(list, at, q);
}

// Puts a route into its place among the routes from `at`, which is free, up to `end`: each that stands before it moves down by
// one.
fn rise_route(list: &mut [u32], at: usize, end: usize, q: Route)
    requires { (at < end) × (end * 3 ≤ length list.old) }
    ensures { list.new ≡ risen list.old at (end - (at + 1)) q }
{
    for i in at..end - 1 {
        let after = whole_route(list, i + 1);
        if !stands_before(after, q) {
            store_whole(list, i, q);
            return;
        }
        store_whole(list, i, after);
    }
    store_whole(list, end - 1, q);
}

// Whether the routes from `at` up to `middle`, which ascend, all stand before a route.
fn all_before(list: &[u32], at: usize, middle: usize, q: Route) -> bool
    requires { middle * 3 ≤ length list.now }
    ensures { result ≡ all_before list.now at middle q }
{
    if middle <= at {
        return true;
    }
    stands_before(whole_route(list, middle - 1), q)
}

// Puts a route into its place among the routes from `at` up to `end`, of which the one at `middle` is free.
fn place_route(list: &mut [u32], at: usize, middle: usize, end: usize, q: Route)
    requires { (at ≤ middle) × (middle < end) × (end * 3 ≤ length list.old) }
    ensures { list.new ≡ placed list.old at middle end q }
{
    if all_before(list, at, middle, q) {
        rise_route(list, middle, end, q);
        return;
    }
    sink_route(list, at, middle, q);
}

// The same on any words and for any places: where these are not in order, or the list ends before the last of them, no word changes.
pub fn insert_route(list: &mut [u32], at: usize, middle: usize, end: usize, q: Route)
    ensures { list.new ≡ inserted list.old at middle end q }
{
    if middle < at {
        return;
    }
    if end <= middle {
        return;
    }
    if list.len() / ROUTE_SIZE < end {
        return;
    }
    place_route(list, at, middle, end, q);
}

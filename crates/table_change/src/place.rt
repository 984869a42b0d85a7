// Rows and routes by value: what an update reads off a row, and the row that it leaves.
ghost use Rattle.std.specs.Prelude.{◌≡◌, ◌<◌};
ghost use Rattle.table_rules.specs.Rows.{child, route_of, leaf_row, with_route, with_child};
ghost use Rattle.bits.specs.Bits.{bit_before};
ghost use Rattle.table_rules.specs.Announce.{is_same, outranks_row};

use routes::Route;
use table_rows::prefix_of;
use table_rules::Row;

// The row with another route, and the children that it has.
pub(crate) fn with_route(x: Row, q: Route) -> Row
    ensures { result ≡ with_route x q }
{
    Row {
        value: q.value,
        len: q.len,
        port: q.port,
        ..x
    }
}

// The row with another child on one side.
pub(crate) fn with_child(x: Row, right: bool, c: u32) -> Row
    ensures { result ≡ with_child x right c }
{
    if right {
        Row { right: c, ..x }
    } else {
        Row { left: c, ..x }
    }
}

// A row with a route and no child.
pub(crate) fn leaf_row(q: Route) -> Row
    ensures { result ≡ leaf_row q }
{
    Row {
        value: q.value,
        len: q.len,
        port: q.port,
        left: 0,
        right: 0,
    }
}

pub(crate) fn child_of(x: Row, right: bool) -> u32
    ensures { result ≡ child x right }
{
    if right { x.right } else { x.left }
}

// Whether the row's prefix is the route's.
pub(crate) fn is_same(q: Route, x: Row) -> bool
    ensures { result ≡ is_same q x }
{
    q.prefix().is_same(prefix_of(x))
}

// Whether the route is to hold the row's place: the place's own prefix first, then the longer, then the smaller value.
pub(crate) fn outranks_row(depth: u32, q: Route, x: Row) -> bool
    ensures { result ≡ outranks_row depth q x }
{
    (depth < x.len) & (!(depth < q.len) | q.prefix().is_ahead(prefix_of(x)))
}

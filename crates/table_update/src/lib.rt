// Changing a table: announce, withdraw and build, on lent rows. Announce and withdraw are a thin checked shell over an inner
// update that assumes good order.
#![tactic(auto)]

ghost use Rattle.std.specs.Prelude.{◌≡◌, ◌-◌, ◌<◌};
ghost use Rattle.table_rows.specs.Words.{five_words};
ghost use Rattle.promise.specs.Over.{outcome};
ghost use Rattle.refusals.specs.Refusals.{answered, updated};
ghost use Rattle.routes.specs.Routes.{route_at};
ghost use Rattle.table_update.specs.Calls.{announce_in, announce_into, prefix_only, withdraw_in, withdraw_into, built_from, build_into};

use prefix::Prefix;
use refusals::{Fault, Refusal};
use routes::{ROUTE_SIZE, Route};
use table_change::refilling::take_route;
use table_change::sinking::{is_held, put_route};
use table_lookup::check;
use table_rows::capacity_of;

// The inner announcement, in a table in good order: a held prefix gets the new port, a new one row n; 9 where there is none.
fn announce_in(rows: &mut [u32], n: u32, q: Route) -> Result<u32, Refusal>
    ensures { outcome (updated n result) rows.new ≡ announce_in five_words 32 rows.old n q }
{
    if is_held(rows, n, q) {
        put_route(rows, n, q);
        return Ok(n);
    }
    if n < capacity_of(rows) {
        put_route(rows, n, q);
        return Ok(n + 1);
    }
    Err(Fault::NoRoom.at(0))
}

// The inner withdrawal, in a table in good order; 10 where the prefix is not held.
fn withdraw_in(rows: &mut [u32], n: u32, q: Route) -> Result<u32, Refusal>
    ensures { outcome (updated n result) rows.new ≡ withdraw_in five_words 32 rows.old n q }
{
    if is_held(rows, n, q) {
        take_route(rows, n, q);
        return Ok(n - 1);
    }
    Err(Fault::NotHeld.at(0))
}

// Announces a route to a table of n routes; gives the new n. Refuses, at place 0: 4, the length is above 32; 5, bits are set
// past it; 6, the port is outside 1..4094; 11, the table is not in good order; 9, the prefix is new and the table full.
pub fn announce(rows: &mut [u32], n: u32, q: Route) -> Result<u32, Refusal>
    ensures { outcome (updated n result) rows.new ≡ announce_into five_words 32 rows.old n q }
{
    routes::route_fault(q)?;
    check(rows, n)?;
    announce_in(rows, n, q)
}

// Withdraws a prefix from a table of n routes; gives the new n. Refuses, at place 0: 4 and 5 as announce does; 11, the table is
// not in good order; 10, the prefix is not held.
pub fn withdraw(rows: &mut [u32], n: u32, p: Prefix) -> Result<u32, Refusal>
    ensures { outcome (updated n result) rows.new ≡ withdraw_into five_words 32 rows.old n p.value p.len }
{
    routes::prefix_fault(p)?;
    check(rows, n)?;
    withdraw_in(
        rows,
        n,
        Route {
            value: p.value,
            len: p.len,
            port: 0,
        },
    )
}

// The first k routes of a list, each announced into the table of those before it.
fn fill(list: &[u32], rows: &mut [u32], k: u32)
    ensures { rows.new ≡ built_from five_words 32 (route_at list.now) k 0 rows.old }
{
    for i in 0..k {
        put_route(rows, i, routes::route_at(list, i as usize));
    }
}

// Builds a table from a list; gives its routes. Refuses as the check of the list does, then 9, there are not as many rows.
pub fn build(list: &[u32], rows: &mut [u32]) -> Result<u32, Refusal>
    ensures { outcome (answered result) rows.new ≡ build_into five_words 32 list.now rows.old }
{
    routes::check_list(list)?;
    let n = (list.len() / ROUTE_SIZE) as u32;
    if capacity_of(rows) < n {
        return Err(Fault::NoRoom.at(0));
    }
    fill(list, rows, n);
    Ok(n)
}

// Saving a table as a list. The walk writes the routes in ascending order: what lies to the left, a free place, what lies to the
// right, and then the row's own route into its place among them.
#![tactic(auto)]

ghost use Rattle.std.specs.Prelude.{◌≡◌, ◌+◌, ◌*◌, ◌<◌, ◌≤◌, length};
ghost use Rattle.promise.specs.Over.{outcome};
ghost use Rattle.refusals.specs.Refusals.{answered};
ghost use Rattle.table_rows.specs.Words.{row_count, capacity, row_at};
ghost use Rattle.table_rules.specs.Save.{saved_at, save_into};
ghost use Rattle.table_rules.specs.Walk.{saved_below};
ghost use Rattle.table_rules.specs.Savable.{Savable};
ghost use Rattle.table_save.specs.Writing.{WroteRoutes};

use list_insert::insert_route;
use refusals::{Fault, Refusal};
use routes::{ROUTE_SIZE, store_route};
use table_lookup::check;
use table_rows::{route_of, whole_row};
use table_rules::Row;

// Writes the routes from a row on, with `left` bits after its depth, from route `at` of the list on. Answers where it ended.
#[cycle(save_at_save_below)]
fn save_at(rows: &[u32], left: u32, row: u32, list: &mut [u32], at: usize) -> usize
    requires { Savable (row_at rows.now) (row_count rows.now) left row × ((at + length (saved_at (row_at rows.now) left row)) * 3 ≤ length list.old) }
    ensures { WroteRoutes (saved_at (row_at rows.now) left row) at result list.old list.new }
{
    let x = whole_row(rows, row);
    if left == 0 {
        store_route(list, at, route_of(x));
        return at + 1;
    }
    let middle = save_below(rows, left - 1, x.left, list, at);
    let end = save_below(rows, left - 1, x.right, list, middle + 1);
    insert_route(list, at, middle, end, route_of(x));
    end
}

// The routes below a row on one side; 0 as a child means none.
#[cycle(save_at_save_below)]
fn save_below(rows: &[u32], left: u32, child: u32, list: &mut [u32], at: usize) -> usize
    requires { (0 < child → Savable (row_at rows.now) (row_count rows.now) left child) × ((at + length (saved_below (row_at rows.now) left child)) * 3 ≤ length list.old) }
    ensures { WroteRoutes (saved_below (row_at rows.now) left child) at result list.old list.new }
{
    if child == 0 {
        return at;
    }
    save_at(rows, left, child, list, at)
}

// Saves a table of n rows as a list, over the front of the words lent. Refuses 11 where the table is not in good order, then 9
// where the words lent have no room for n routes, both at place 0; a refusal writes nothing.
pub fn save(rows: &[u32], n: u32, list: &mut [u32]) -> Result<u32, Refusal>
    ensures { outcome (answered result) list.new ≡ save_into 32 (capacity rows.now) (row_at rows.now) n list.old }
{
    check(rows, n)?;
    if list.len() / ROUTE_SIZE < n as usize {
        return Err(Fault::NoRoom.at(0));
    }
    if n == 0 {
        return Ok(0);
    }
    save_at(rows, 32, 0, list, 0);
    Ok(n)
}

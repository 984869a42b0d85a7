// The run listing written into lent memory: of a list once it is checked, and of a table by the list that it is saved as.
#![tactic(auto)]

ghost use Rattle.std.specs.Prelude.{◌≡◌};
ghost use Rattle.promise.specs.Over.{outcome};
ghost use Rattle.refusals.specs.Refusals.{answered};
ghost use Rattle.table_rows.specs.Words.{capacity, row_at};
ghost use Rattle.runs_rules.specs.Listing.{list_runs};
ghost use Rattle.runs_rules.specs.TableRuns.{table_runs};

use refusals::Refusal;
use routes::{MOST_ROUTES, ROUTE_SIZE, check_list};
use sweep::write_runs;
use table_save::save;

mod sweep;

// The words of a run in a listing: first address, last address, port.
pub const RUN_SIZE: usize = 3;

// The words of as many routes as a table can have.
const LIST_SIZE: usize = MOST_ROUTES * ROUTE_SIZE;

// The run listing of a list: three words a run, first address, last address, port; and their number. Refuses as the list
// check does, then 9, no room for the runs, at place 0.
pub fn list_runs(list: &[u32], runs: &mut [u32]) -> Result<u32, Refusal>
    ensures { outcome (answered result) runs.new ≡ list_runs 32 list.now runs.old }
{
    check_list(list)?;
    write_runs(list, list.len() / ROUTE_SIZE, runs)
}

// The run listing of a table of n rows: three words a run, first address, last address, port; and their number. Refuses 11
// where the table is not in good order, then 9, no room for the runs, both at place 0.
pub fn table_runs(rows: &[u32], n: u32, runs: &mut [u32]) -> Result<u32, Refusal>
    ensures { outcome (answered result) runs.new ≡ table_runs 32 (capacity rows.now) (row_at rows.now) n runs.old }
{
    let mut list = [0u32; LIST_SIZE];
    let count = save(rows, n, &mut list)?;
    // What a table in good order is saved as is a valid list: it is not checked again.
    write_runs(&list, count as usize, runs)
}

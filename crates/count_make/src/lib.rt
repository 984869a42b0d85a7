// Counts made afresh: the runs of a table, each added to the count of its port.
#![tactic(auto)]

ghost use Rattle.std.specs.Prelude.{◌≡◌, ◌≤◌, length};
ghost use Rattle.promise.specs.Over.{outcome, over};
ghost use Rattle.refusals.specs.Refusals.{checked};
ghost use Rattle.lists.specs.Numbered.{list_of};
ghost use Rattle.table_rows.specs.Words.{five_words};
ghost use Rattle.runs_rules.specs.Runs.{run, run_at};
ghost use Rattle.count_rules.specs.Tally.{ports};
ghost use Rattle.count_rules.specs.Counted.{make_counts};
ghost use Rattle.count_make.specs.Adding.{noughts, add_run, added_runs, Addable, AllAddable};

use count_rules::PORTS;
use refusals::{Fault, Refusal};
use runs_write::{RUN_SIZE, table_runs};

// The words of as many runs as a table can have.
const RUNS_SIZE: usize = 24579;

// Sets the first 4,095 counts to 0.
fn clear_counts(counts: &mut [u64])
    requires { ports ≤ length counts.old }
    ensures { counts.new ≡ over (noughts ports) counts.old }
{
    for port in 0..PORTS {
        counts[port] = 0;
    }
}

// Adds the addresses of a run to the count of its port.
fn add_run(counts: &mut [u64], first: u32, last: u32, port: u32)
    requires { Addable counts.old (run first last port) }
    ensures { counts.new ≡ add_run counts.old (run first last port) }
{
    let at = port as usize;
    counts[at] += (last - first) as u64 + 1;
}

// Adds the addresses of the first k runs.
fn add_runs(counts: &mut [u64], runs: &[u32], k: usize)
    requires { AllAddable runs.now k counts.old }
    ensures { counts.new ≡ added_runs counts.old (list_of (run_at runs.now) k 0) }
{
    for i in 0..k {
        let at = i * RUN_SIZE;
        add_run(counts, runs[at], runs[at + 1], runs[at + 2]);
    }
}

// Makes the counts of a table of n rows afresh: the first 4,095 are written, whatever stood there. Refuses, at place 0: 9, fewer are
// lent; 11, the table is not in good order. It needs some 160 KB of stack for the routes and the runs.
pub fn make(rows: &[u32], n: u32, counts: &mut [u64]) -> Result<(), Refusal>
    ensures { outcome (checked result) counts.new ≡ make_counts five_words 32 rows.now n counts.old }
{
    if counts.len() < PORTS {
        return Err(Fault::NoRoom.at(0));
    }
    let mut runs = [0u32; RUNS_SIZE];
    // There is room for all runs that a table can have, so that this refuses a table that is not in good order, and no other.
    let count = table_runs(rows, n, &mut runs)?;
    clear_counts(counts);
    add_runs(counts, &runs, count as usize);
    Ok(())
}

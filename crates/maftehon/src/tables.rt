// The table: check and lookup, the build, and what is made from it. `counts` has the updates.
ghost use Rattle.std.specs.Prelude.{◌≡◌};
ghost use Rattle.promise.specs.Over.{outcome};
ghost use Rattle.table_rows.specs.Words.{capacity, row_at, five_words};
ghost use Rattle.table_rules.specs.Lookup.{lookup_in};
ghost use Rattle.table_rules.specs.Save.{save_into};
ghost use Rattle.table_lookup.specs.Good.{table_check};
ghost use Rattle.table_update.specs.Calls.{build_into};
ghost use Rattle.runs_rules.specs.TableRuns.{table_runs};
ghost use Rattle.refusals.specs.Reply.{reply, placed, looked, replied};

use refusals::Answer;
use refusals::found::Found;
use refusals::reply::{counted, looked, placed};
use runs_write::table_runs;
use table_save::save;

pub fn mft_table_check(rows: &[u32], n: u32, answer: &mut [u32; 1]) -> u32
    ensures { reply result answer.new ≡ placed (table_check 32 (capacity rows.now) (row_at rows.now) n) }
{
    placed(Answer::from(table_lookup::check(rows, n)), answer)
}

pub fn mft_table_lookup(rows: &[u32], n: u32, address: u32, answer: &mut [u32; 3]) -> u32
    ensures { reply result answer.new ≡ looked (lookup_in 32 (capacity rows.now) (row_at rows.now) n address) }
{
    looked(Found::from(table_lookup::lookup(rows, n, address)), answer)
}

pub fn mft_table_build(list: &[u32], rows: &mut [u32], answer: &mut [u32; 2]) -> u32
    ensures { outcome (reply result answer.new) rows.new ≡ replied (build_into five_words 32 list.now rows.old) }
{
    counted(Answer::from(table_update::build(list, rows)), answer)
}

pub fn mft_table_save(rows: &[u32], n: u32, list: &mut [u32], answer: &mut [u32; 2]) -> u32
    ensures { outcome (reply result answer.new) list.new ≡ replied (save_into 32 (capacity rows.now) (row_at rows.now) n list.old) }
{
    counted(Answer::from(save(rows, n, list)), answer)
}

pub fn mft_table_runs(rows: &[u32], n: u32, runs: &mut [u32], answer: &mut [u32; 2]) -> u32
    ensures { outcome (reply result answer.new) runs.new ≡ replied (table_runs 32 (capacity rows.now) (row_at rows.now) n runs.old) }
{
    counted(Answer::from(table_runs(rows, n, runs)), answer)
}

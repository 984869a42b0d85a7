// The route list: its check, its plain scan, and its run listing.
ghost use Rattle.std.specs.Prelude.{◌≡◌};
ghost use Rattle.promise.specs.Over.{outcome};
ghost use Rattle.routes.specs.Check.{list_check};
ghost use Rattle.routes.specs.Scan.{list_scan};
ghost use Rattle.runs_rules.specs.Listing.{list_runs};
ghost use Rattle.refusals.specs.Reply.{reply, placed, counted, replied};

use refusals::Answer;
use refusals::reply::{counted, placed};
use routes::{check_list, scan_list};
use runs_write::list_runs;

pub fn mft_list_check(list: &[u32], answer: &mut [u32; 1]) -> u32
    ensures { reply result answer.new ≡ placed (list_check 32 list.now) }
{
    placed(Answer::from(check_list(list)), answer)
}

pub fn mft_list_scan(list: &[u32], address: u32, answer: &mut [u32; 2]) -> u32
    ensures { reply result answer.new ≡ counted (list_scan 32 list.now address) }
{
    counted(Answer::from(scan_list(list, address)), answer)
}

pub fn mft_list_runs(list: &[u32], runs: &mut [u32], answer: &mut [u32; 2]) -> u32
    ensures { outcome (reply result answer.new) runs.new ≡ replied (list_runs 32 list.now runs.old) }
{
    counted(Answer::from(list_runs(list, runs)), answer)
}

// The sweep over the addresses that lists the runs of a valid list, with the routes that are open at the present one on a stack.
ghost use Rattle.std.specs.Prelude.{◌≡◌};
ghost use Rattle.promise.specs.Over.{outcome};
ghost use Rattle.refusals.specs.Refusals.{answered};
ghost use Rattle.routes.specs.Routes.{route_at, ValidList};
ghost use Rattle.runs_rules.specs.Listing.{listed, write_runs};
ghost use Rattle.runs_write.specs.Sweep.{start_of};
ghost use Rattle.runs_write.specs.Needs.{RoomFor, Ended, Turned, GoneOn, Sweepable, Swept};

use crate::RUN_SIZE;
use refusals::{Fault, Refusal};
use routes::route_at;

// The last of all addresses.
const LAST_ADDRESS: u32 = 4294967295;

// As many routes as can be open at once, and the whole space below them: entry 0 of the stack.
const STACK_SIZE: usize = 34;

// The run that is open: its first address, the address after the last one it has, its port, and how many runs ended before
// it. Before it has any address, both addresses are 0.
#[derive(Clone, Copy)]
struct OpenRun {
    first: u32,
    next: u32,
    port: u32,
    count: usize,
}

// A route that is open at the present address: its last address, and its port.
#[derive(Clone, Copy)]
struct OpenRoute {
    end: u32,
    port: u32,
}

// Where route i begins; past the n routes, the last of all addresses.
fn start_of(list: &[u32], n: usize, i: usize) -> u32
    ensures { result ≡ start_of 32 (route_at list.now) n i }
{
    if i < n {
        return route_at(list, i).prefix().first();
    }
    LAST_ADDRESS
}

// Writes run k where that is asked, and gives the number of the next.
fn end_run(runs: &mut [u32], k: usize, first: u32, last: u32, port: u32, write: bool) -> usize
    requires { RoomFor runs.old write k }
    ensures { Ended runs.old write k first last port result runs.new }
{
    if write {
        let at = k * RUN_SIZE;
        runs[at] = first;
        runs[at + 1] = last;
        runs[at + 2] = port;
        return k + 1;
    }
    k + 1
}

// The next address goes to a port. Neighbours with one port join: the open run ends where another port begins.
fn turn_to(runs: &mut [u32], run: OpenRun, port: u32, write: bool) -> OpenRun
    requires { RoomFor runs.old write run.count }
    ensures { Turned runs.old write run port result runs.new }
{
    if (run.next == 0) | (port == run.port) {
        return OpenRun { port, ..run };
    }
    let count = end_run(runs, run.count, run.first, run.next - 1, run.port, write);
    OpenRun {
        first: run.next,
        port,
        count,
        ..run
    }
}

// All addresses before `to` that the open run does not have yet go to a port.
fn go_on(runs: &mut [u32], run: OpenRun, to: u32, port: u32, write: bool) -> OpenRun
    requires { RoomFor runs.old write run.count }
    ensures { GoneOn runs.old write run to port result runs.new }
{
    if to <= run.next {
        return run;
    }
    let turned = turn_to(runs, run, port, write);
    OpenRun {
        next: to,
        port,
        ..turned
    }
}

// Counts the runs of the first n routes, and writes them where that is asked. Each turn closes the innermost of the open
// routes, which ends before the next route begins, or else opens that; the addresses up to there are the innermost's.
fn sweep(list: &[u32], n: usize, runs: &mut [u32], write: bool) -> usize
    requires { Sweepable 32 (route_at list.now) n runs.old write }
    ensures { Swept (listed 32 (route_at list.now) n) write result runs.old runs.new }
{
    let whole = OpenRoute {
        end: LAST_ADDRESS,
        port: 0,
    };
    let mut stack = [whole; STACK_SIZE];
    let mut depth: usize = 0;
    let mut run = OpenRun {
        first: 0,
        next: 0,
        port: 0,
        count: 0,
    };
    let mut i: usize = 0;
    let mut start = start_of(list, n, 0);
    loop {
        let OpenRoute { end: stop, port } = stack[depth];
        if stop < start {
            run = go_on(runs, run, stop + 1, port, write);
            depth -= 1;
            continue;
        }
        if n <= i {
            let last = turn_to(runs, run, port, write);
            return end_run(runs, last.count, last.first, LAST_ADDRESS, port, write);
        }
        run = go_on(runs, run, start, port, write);
        let route = route_at(list, i);
        depth += 1;
        stack[depth] = OpenRoute {
            end: route.prefix().last(),
            port: route.port,
        };
        i += 1;
        start = start_of(list, n, i);
    }
}

// Where the lent memory may be short for the runs, they are counted first, so that nothing is written before 9 is known.
fn write_counted(list: &[u32], n: usize, runs: &mut [u32]) -> Result<u32, Refusal>
    requires { ValidList 32 (route_at list.now) n }
    ensures { outcome (answered result) runs.new ≡ write_runs (listed 32 (route_at list.now) n) runs.old }
{
    let count = sweep(list, n, runs, false);
    if runs.len() / RUN_SIZE < count {
        return Err(Fault::NoRoom.at(0));
    }
    sweep(list, n, runs, true);
    Ok(count as u32)
}

// The runs of the first n routes of a list that is known to be valid. Refuses 9, no room for them; else their
// words, and their number. n routes have at most 2n+1 runs: with room for those, nothing is refused.
pub(crate) fn write_runs(list: &[u32], n: usize, runs: &mut [u32]) -> Result<u32, Refusal>
    requires { ValidList 32 (route_at list.now) n }
    ensures { outcome (answered result) runs.new ≡ write_runs (listed 32 (route_at list.now) n) runs.old }
{
    let room = runs.len() / RUN_SIZE;
    if 2 * n < room {
        let count = sweep(list, n, runs, true);
        return Ok(count as u32);
    }
    write_counted(list, n, runs)
}

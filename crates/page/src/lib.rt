// The page that the program `runs` prints for a route file, written into lent bytes.
#![tactic(auto)]

ghost use Rattle.std.specs.Prelude.{◌≡◌, ◌++◌, ◌+◌, ◌*◌, ◌≤◌, length};
ghost use Rattle.promise.specs.Over.{outcome};
ghost use Rattle.refusals.specs.Refusals.{number_of, refused};
ghost use Rattle.routes.specs.Routes.{route_at, route_count};
ghost use Rattle.lists.specs.Numbered.{list_of};
ghost use Rattle.runs_rules.specs.Runs.{run, run_at};
ghost use Rattle.runs_rules.specs.Listing.{listed};
ghost use Rattle.page.specs.Page.{line_of, lines_of, header, header_room, line_room, refusal_room, runs_text, refused_text, page_of};
ghost use Rattle.page.specs.Needs.{Wrote, Lined, Shown};

use file_read::read_file;
use put::{put_byte, put_bytes, put_dotted, put_number};
use refusals::{Fault, Refusal};
use routes::ROUTE_SIZE;
use runs_write::{RUN_SIZE, list_runs};

mod put;

// A longer file is refused.
pub const MOST_BYTES: usize = 1797;

// A valid file of more routes is refused.
pub const MOST_ROUTES_SHOWN: usize = 256;

// Those routes have no more runs: n have 2n+1 at most.
pub const MOST_RUNS_SHOWN: usize = 2 * MOST_ROUTES_SHOWN + 1;

// Bytes that hold any header: "runs ", ten digits and a newline.
pub const HEADER_ROOM: usize = 16;

// Bytes that hold any line: two addresses of 15 bytes and a number of ten digits, each with one byte after it.
pub const LINE_ROOM: usize = 43;

// Bytes that hold any page.
pub const PAGE_ROOM: usize = HEADER_ROOM + MOST_RUNS_SHOWN * LINE_ROOM;

// The words of as many routes as a page shows.
const LIST_SIZE: usize = MOST_ROUTES_SHOWN * ROUTE_SIZE;

// The words of as many runs as these have.
const RUNS_SIZE: usize = MOST_RUNS_SHOWN * RUN_SIZE;

// A run's line: first address, last address, port.
fn put_line(out: &mut [u8], at: usize, first: u32, last: u32, port: u32) -> usize
    requires { at + line_room ≤ length out.old }
    ensures { Wrote out.old at (line_of (run first last port)) result out.new }
{
    let a = put_dotted(out, at, first, 3);
    let b = put_byte(out, a, b' ');
    let c = put_dotted(out, b, last, 3);
    let d = put_byte(out, c, b' ');
    let e = put_number(out, d, port);
    put_byte(out, e, b'\n')
}

// The lines of the first n runs.
fn put_lines(out: &mut [u8], at: usize, runs: &[u32], n: usize) -> usize
    requires { Lined out.old at runs.now n }
    ensures { Wrote out.old at (lines_of (list_of (run_at runs.now) n 0)) result out.new }
{
    let mut next = at;
    for i in 0..n {
        let row = i * RUN_SIZE;
        next = put_line(out, next, runs[row], runs[row + 1], runs[row + 2]);
    }
    next
}

// The header, and the lines of the first n runs.
fn put_listing(out: &mut [u8], runs: &[u32], n: usize) -> usize
    requires { Lined out.old header_room runs.now n }
    ensures { Wrote out.old 0 (header n ++ lines_of (list_of (run_at runs.now) n 0)) result out.new }
{
    let a = put_bytes(out, 0, b"runs ");
    let b = put_number(out, a, n as u32);
    let c = put_byte(out, b, b'\n');
    put_lines(out, c, runs, n)
}

// A refusal's number and place.
fn put_refusal(out: &mut [u8], refusal: Refusal) -> usize
    requires { refusal_room ≤ length out.old }
    ensures { Wrote out.old 0 (refused_text (refused (number_of refusal.fault) refusal.place)) result out.new }
{
    let number = u32::from(refusal.fault);
    let a = put_bytes(out, 0, b"refused ");
    let b = put_number(out, a, number);
    let c = put_byte(out, b, b' ');
    let d = put_number(out, c, refusal.place);
    put_byte(out, d, b'\n')
}

// The listing of a list that the check accepts, and that a page shows.
fn put_runs(list: &[u32], out: &mut [u8]) -> usize
    requires { Shown 32 list.now out.old }
    ensures { Wrote out.old 0 (runs_text (listed 32 (route_at list.now) (route_count list.now))) result out.new }
{
    let mut runs = [0u32; RUNS_SIZE];
    let count = list_runs(list, &mut runs).unwrap();
    put_listing(out, &runs, count as usize)
}

// The page for a file, and how many bytes it has; none where the lent bytes do not hold any page.
pub fn page(file: &[u8], out: &mut [u8]) -> usize
    ensures { outcome result out.new ≡ page_of 32 file.now out.old }
{
    if out.len() < PAGE_ROOM {
        return 0;
    }
    if MOST_BYTES < file.len() {
        return put_refusal(out, Fault::NoRoom.at(0));
    }
    let mut list = [0u32; LIST_SIZE];
    match read_file(file, &mut list) {
        Ok(count) => put_runs(&list[..count as usize * ROUTE_SIZE], out),
        Err(refusal) => put_refusal(out, refusal),
    }
}

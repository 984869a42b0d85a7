// The reader of route files, on any bytes: a first pass that checks and counts, and a second that writes.
#![tactic(auto)]

ghost use Rattle.std.specs.Prelude.{◌≡◌};
ghost use Rattle.promise.specs.Over.{over, outcome};
ghost use Rattle.refusals.specs.Refusals.{fault_number, answered};
ghost use Rattle.file_rules.specs.File.{file_route};
ghost use Rattle.file_rules.specs.Check.{head_fault, file_check};
ghost use Rattle.file_rules.specs.Calls.{read_file};
ghost use Rattle.routes.specs.Routes.{list_of_routes};
ghost use Rattle.file_read.specs.Needs.{FitsList};

use file_rules::{HEAD_SIZE, VERSION, route_size};
use octets::number_at;
use refusals::{Fault, Refusal};
use routes::{ROUTE_SIZE, store_route};
use step::{Cursor, read_at, step_at};

mod step;

// Whether a file has its head. Refuses 1, under 5 bytes; 2, its version is not 1; 3, its stated size.
fn head_fault(file: &[u8]) -> Result<(), Fault>
    ensures { fault_number result ≡ head_fault file.now }
{
    if file.len() < HEAD_SIZE {
        return Err(Fault::ShortFile);
    }
    if file[0] != VERSION {
        return Err(Fault::WrongVersion);
    }
    let stated = number_at(file, 1, 4);
    let present = (file.len() - HEAD_SIZE) as u64;
    if stated == present {
        Ok(())
    } else {
        Err(Fault::WrongSize)
    }
}

// Checks a file, and counts its routes.
fn check_file(file: &[u8]) -> Result<u32, Refusal>
    ensures { answered result ≡ file_check 32 file.now }
{
    head_fault(file)?;
    let mut c = Cursor {
        at: HEAD_SIZE,
        count: 0,
        past: None,
    };
    while c.at < file.len() {
        // Not by `?`, which hands the cursor on through memory: a file took 1.7 times as long.
        match step_at(file, c) {
            Ok(next) => c = next,
            Err(refusal) => return Err(refusal),
        }
    }
    Ok(c.count as u32)
}

// Writes the routes of a file that the check accepts.
fn fill_list(file: &[u8], list: &mut [u32], n: usize)
    requires { FitsList 32 file.now list.old n }
    ensures { list.new ≡ over (list_of_routes (file_route 32 file.now) n) list.old }
{
    let mut at = HEAD_SIZE;
    for i in 0..n {
        let r = read_at(file, at);
        store_route(list, i, r);
        at += route_size(r.len);
    }
}

// Reads a route file into a list; answers how many routes. Refuses 1, 2, 3 (size) at place 0; then the first route that is at
// fault, at the offset of its first byte, with its first fault of 8, 4, 3 (cut), 6, 7; last 9, the list is too short.
pub fn read_file(file: &[u8], list: &mut [u32]) -> Result<u32, Refusal>
    ensures { outcome (answered result) list.new ≡ read_file 32 file.now list.old }
{
    let count = check_file(file)?;
    let n = count as usize;
    if list.len() / ROUTE_SIZE < n {
        return Err(Fault::NoRoom.at(0));
    }
    fill_list(file, list, n);
    Ok(count)
}

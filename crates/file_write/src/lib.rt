// The writer of route files, from any list: the size first, then the head and the routes.
#![tactic(auto)]

ghost use Rattle.std.specs.Prelude.{◌≡◌, ◌+◌, ◌≤◌, length};
ghost use Rattle.promise.specs.Over.{over, outcome};
ghost use Rattle.refusals.specs.Refusals.{answered};
ghost use Rattle.routes.specs.Routes.{route_at, route_count};
ghost use Rattle.routes.specs.Check.{list_check};
ghost use Rattle.octets.specs.Octets.{stored};
ghost use Rattle.file_rules.specs.File.{head_size, size_for, route_bytes, body_of, head_of};
ghost use Rattle.file_rules.specs.Calls.{write_file};
ghost use Rattle.file_write.specs.Needs.{BodySize, FitsFile};

use file_rules::{HEAD_SIZE, VERSION, route_size};
use octets::{prefix_size, put_number, put_prefix};
use refusals::{Fault, Refusal};
use routes::{ROUTE_SIZE, Route, check_list, route_at};

// Stores the bytes of a route from an offset on.
fn put_bytes(file: &mut [u8], at: usize, r: Route)
    requires { (at + size_for r.len ≤ length file.old) × (r.len ≤ 32) }
    ensures { file.new ≡ stored file.old at (route_bytes 32 r) }
{
    put_prefix(file, at, r.prefix());
    put_number(file, at + prefix_size(r.len), 2, r.port as u64);
}

// How many bytes the routes of a valid list take.
fn body_size(list: &[u32]) -> usize
    requires { (list_check 32 list.now).number ≡ 0 }
    ensures { BodySize 32 list.now result }
{
    let mut size: usize = 0;
    for i in 0..list.len() / ROUTE_SIZE {
        let r = route_at(list, i);
        size += route_size(r.len);
    }
    size
}

// Stores the version and the size.
fn put_head(file: &mut [u8], size: usize)
    requires { head_size ≤ length file.old }
    ensures { file.new ≡ over (head_of size) file.old }
{
    file[0] = VERSION;
    put_number(file, 1, 4, size as u64);
}

// Stores the routes of a valid list after the head.
fn put_body(list: &[u32], file: &mut [u8])
    requires { FitsFile 32 list.now file.old }
    ensures { file.new ≡ stored file.old head_size (body_of 32 (route_at list.now) (route_count list.now)) }
{
    let mut at = HEAD_SIZE;
    for i in 0..list.len() / ROUTE_SIZE {
        let r = route_at(list, i);
        put_bytes(file, at, r);
        at += route_size(r.len);
    }
}

// Writes a list as a route file; answers how many bytes. Refuses as the list check does: 3 and 8 at place 0, then the first route
// that is at fault, by its number, with its first fault of 4, 5, 6, 7; last 9, the room for the file is too short.
pub fn write_file(list: &[u32], file: &mut [u8]) -> Result<u32, Refusal>
    ensures { outcome (answered result) file.new ≡ write_file 32 list.now file.old }
{
    check_list(list)?;
    let size = body_size(list);
    if file.len() < HEAD_SIZE + size {
        return Err(Fault::NoRoom.at(0));
    }
    put_head(file, size);
    put_body(list, file);
    Ok((HEAD_SIZE + size) as u32)
}

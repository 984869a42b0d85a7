// One step of the reader at a cursor: the cursor after the route, or the refusal with its place.
ghost use Rattle.std.specs.Prelude.{◌≡◌, ◌<◌, length};
ghost use Rattle.refusals.specs.Refusals.{fault_number};
ghost use Rattle.file_rules.specs.File.{port_from, read_at};
ghost use Rattle.file_rules.specs.Check.{frame_fault, content_fault, Entire};
ghost use Rattle.file_read.specs.Step.{rises, stepped, step_at};
ghost use Rattle.file_read.specs.Needs.{Standing};

use file_rules::route_size;
use octets::{length_at, number_at, prefix_bytes, prefix_from};
use prefix::Prefix;
use refusals::{Fault, Refusal};
use routes::{MOST_ROUTES, Route, is_port};

// Where the reader stands: the offset of the next route, its number from 0, and the prefix of the route before it, if there is one.
#[derive(Clone, Copy)]
pub struct Cursor {
    pub at: usize,
    pub count: usize,
    pub past: Option<Prefix>,
}

// The port from its two bytes; those past the end are left out.
fn port_from(file: &[u8], from: usize) -> u32
    ensures { result ≡ port_from file.now from }
{
    number_at(file, from, 2) as u32
}

// The route at an offset, where a whole one stands.
pub(crate) fn read_at(file: &[u8], at: usize) -> Route
    requires { Entire 32 file.now at }
    ensures { result ≡ read_at 32 file.now at }
{
    let len = length_at(file, at);
    let p = prefix_from(file, at + 1, len);
    // Summed in this order: by `prefix_size`, the loads of the length bytes waited for a sum, and a file took a seventh longer.
    let port = port_from(file, at + 1 + prefix_bytes(len));
    Route {
        value: p.value,
        len,
        port,
    }
}

// Whether route i can be read. Refuses 8, it is one too many; 4, its length is above 32; 3, it is cut.
fn frame_fault(file: &[u8], i: usize, at: usize) -> Result<(), Fault>
    requires { at < length file.now }
    ensures { fault_number result ≡ frame_fault 32 file.now i at 0 }
{
    if MOST_ROUTES <= i {
        return Err(Fault::TooManyRoutes);
    }
    let len = length_at(file, at);
    if 32 < len {
        return Err(Fault::LongPrefix);
    }
    if file.len() < at + route_size(len) {
        Err(Fault::WrongSize)
    } else {
        Ok(())
    }
}

// Whether a route that was read may stand there. Refuses 6, its port; 7, not above the one before.
fn content_fault(route: Route, rises: bool) -> Result<(), Fault>
    ensures { fault_number result ≡ content_fault route rises }
{
    if is_port(route.port) {
        if rises { Ok(()) } else { Err(Fault::NotAbove) }
    } else {
        Err(Fault::WrongPort)
    }
}

// Whether a route is above the one before it; the first is.
fn rises_after(past: Option<Prefix>, r: Route) -> bool
    ensures { result ≡ rises past r }
{
    match past {
        Some(before) => before.precedes(r.prefix()),
        None => true,
    }
}

// The route at the cursor and the cursor after it, or its first fault at the offset of its first byte.
pub(crate) fn step_at(file: &[u8], c: Cursor) -> Result<Cursor, Refusal>
    requires { Standing 32 file.now c }
    ensures { stepped result ≡ step_at 32 file.now c }
{
    let at = c.at;
    if let Err(fault) = frame_fault(file, c.count, at) {
        return Err(fault.at(at as u32));
    }
    let r = read_at(file, at);
    if let Err(fault) = content_fault(r, rises_after(c.past, r)) {
        return Err(fault.at(at as u32));
    }
    Ok(Cursor {
        at: at + route_size(r.len),
        count: c.count + 1,
        past: Some(r.prefix()),
    })
}

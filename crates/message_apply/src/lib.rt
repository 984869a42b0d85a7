// Applies an UPDATE message to a table, whole or not at all. The prefixes of a message are at most 4,073, so a table of their own in local
// memory tells which of them were met before: it counts the final set before a row is written, and no route is copied.
#![tactic(auto)]

ghost use Rattle.std.specs.Prelude.{◌≡◌, ◌+◌, ◌≤◌, ◌<◌, length};
ghost use Rattle.promise.specs.Over.{outcome};
ghost use Rattle.refusals.specs.Refusals.{updated};
ghost use Rattle.table_rows.specs.Words.{five_words};
ghost use Rattle.message_rules.specs.Message.{prefixes_in};
ghost use Rattle.message_calls.specs.Named.{route_to, holds};
ghost use Rattle.message_calls.specs.Steps.{note_one, noted, drop_one, dropped, add_one, added};
ghost use Rattle.message_calls.specs.Apply.{applied_to, apply_into};
ghost use Rattle.message_apply.specs.Needs.{table_as, noted_as, Small, seen_size, Applies};

use message_check::check_message;
use message_rules::WITHDRAWN_AT;
use message_rules::prefixes::Prefixes;
use prefix::Prefix;
use refusals::{Fault, Refusal};
use routes::{Route, is_port};
use table_change::refilling::take_route;
use table_change::sinking::{is_held, put_route};
use table_rows::capacity_of;

// The words of a row for each of 4,096 prefixes; a message has at most 4,073.
const SEEN_SIZE: usize = 20480;

// Of the prefixes met: how many are different, and how many of those the table holds.
#[derive(Clone, Copy, Debug, Default, PartialEq, Eq)]
pub struct Tally {
    pub met: u32,
    pub hits: u32,
}

fn route_to(p: Prefix, port: u32) -> Route
    ensures { result ≡ route_to port p }
{
    Route {
        value: p.value,
        len: p.len,
        port,
    }
}

// A prefix met for the first time gets a row among those seen, and is a hit where the table holds it.
fn note_one(rows: &[u32], n: u32, seen: &mut [u32], port: u32, t: Tally, p: Prefix) -> Tally
    requires { Small t }
    ensures { noted_as seen.new result ≡ note_one five_words 32 (holds 32 (five_words.get rows.now) n) port (noted_as seen.old t) p }
{
    let asked = route_to(p, 0);
    if is_held(seen, t.met, asked) {
        return t;
    }
    put_route(seen, t.met, route_to(p, port));
    if is_held(rows, n, asked) {
        return Tally {
            met: t.met + 1,
            hits: t.hits + 1,
        };
    }
    Tally {
        met: t.met + 1,
        hits: t.hits,
    }
}

// The prefixes of a part, each noted.
fn note_part(part: &[u8], rows: &[u32], n: u32, seen: &mut [u32], port: u32, start: Tally) -> Tally
    requires { (start.met + length part.now < 65536) × (start.hits + length part.now < 65536) }
    ensures { noted_as seen.new result ≡ noted five_words 32 (holds 32 (five_words.get rows.now) n) port (noted_as seen.old start) (prefixes_in 32 part.now) }
{
    let mut t = start;
    for p in Prefixes::new(part) {
        t = note_one(rows, n, seen, port, t, p);
    }
    t
}

// A withdrawn prefix goes where the table holds it, and is not seen among the announced ones.
fn drop_one(seen: &[u32], met: u32, rows: &mut [u32], n: u32, p: Prefix) -> u32
    ensures { table_as rows.new result ≡ drop_one five_words 32 (holds 32 (five_words.get seen.now) met) (table_as rows.old n) p }
{
    let q = route_to(p, 0);
    if is_held(seen, met, q) {
        return n;
    }
    if is_held(rows, n, q) {
        take_route(rows, n, q);
        return n - 1;
    }
    n
}

// The prefixes of a part withdrawn; gives how many routes are left.
fn drop_part(part: &[u8], seen: &[u32], met: u32, rows: &mut [u32], count: u32) -> u32
    ensures { table_as rows.new result ≡ dropped five_words 32 (holds 32 (five_words.get seen.now) met) (table_as rows.old count) (prefixes_in 32 part.now) }
{
    let mut n = count;
    for p in Prefixes::new(part) {
        n = drop_one(seen, met, rows, n, p);
    }
    n
}

// An announced prefix gets the port; a new one gets row n.
fn add_one(port: u32, rows: &mut [u32], n: u32, p: Prefix) -> u32
    requires { n < 65536 }
    ensures { table_as rows.new result ≡ add_one five_words 32 port (table_as rows.old n) p }
{
    let q = route_to(p, port);
    if is_held(rows, n, q) {
        put_route(rows, n, q);
        return n;
    }
    put_route(rows, n, q);
    n + 1
}

// The prefixes of a part announced; gives how many routes there are then.
fn add_part(part: &[u8], port: u32, rows: &mut [u32], count: u32) -> u32
    requires { count + length part.now < 65536 }
    ensures { table_as rows.new result ≡ added five_words 32 port (table_as rows.old count) (prefixes_in 32 part.now) }
{
    let mut n = count;
    for p in Prefixes::new(part) {
        n = add_one(port, rows, n, p);
    }
    n
}

// Withdrawn and announced prefixes on a table in good order. The final set has all routes held but those that the message names, and the
// announced ones; whether it fits is known before a row is written.
fn apply_parts(
    gone: &[u8],
    come: &[u8],
    port: u32,
    rows: &mut [u32],
    n: u32,
    seen: &mut [u32],
) -> Result<u32, Refusal>
    requires { Applies port gone.now come.now rows.old n × (seen_size ≤ length seen.old) }
    ensures { outcome (updated n result) rows.new ≡ applied_to five_words 32 port (prefixes_in 32 gone.now) (prefixes_in 32 come.now) rows.old n }
{
    let announced = note_part(come, rows, n, seen, port, Tally { met: 0, hits: 0 });
    let named = note_part(gone, rows, n, seen, port, announced);
    if capacity_of(rows) + named.hits < n + announced.met {
        return Err(Fault::NoRoom.at(0));
    }
    // Now the announced ones alone: they are not to be withdrawn.
    let kept = note_part(come, rows, n, seen, port, Tally { met: 0, hits: 0 });
    let left = drop_part(gone, seen, kept.met, rows, n);
    Ok(add_part(come, port, rows, left))
}

// Applies a message to a table of n routes, whole or not at all; the count is the new n. Refuses as the check of the message does, then at
// place 0: 6, the port is outside 1..4094; 11, the table is not in good order; 9, the final set exceeds the capacity. It needs 80 KB of
// stack for the prefixes of the message.
pub fn apply(message: &[u8], port: u32, rows: &mut [u32], n: u32) -> Result<u32, Refusal>
    ensures { outcome (updated n result) rows.new ≡ apply_into five_words 32 message.now port rows.old n }
{
    let parts = check_message(message)?;
    if !is_port(port) {
        return Err(Fault::WrongPort.at(0));
    }
    if !table_lookup::is_good(rows, n) {
        return Err(Fault::NotInOrder.at(0));
    }
    let mut seen = [0u32; SEEN_SIZE];
    apply_parts(
        &message[WITHDRAWN_AT..parts.end],
        &message[parts.start..],
        port,
        rows,
        n,
        &mut seen,
    )
}

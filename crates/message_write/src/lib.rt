// The writer of the message that withdraws a list: the size first, then the head, the prefixes, and that there are no attributes.
#![tactic(auto)]

ghost use Rattle.std.specs.Prelude.{◌≡◌, ◌≤◌, length, replicate};
ghost use Rattle.refusals.specs.Refusals.{answered};
ghost use Rattle.promise.specs.Over.{over, outcome};
ghost use Rattle.routes.specs.Routes.{route_at, route_count, ValidList};
ghost use Rattle.octets.specs.Octets.{stored};
ghost use Rattle.message_rules.specs.Message.{marker_size, withdrawn_at, most_size, ones};
ghost use Rattle.message_rules.specs.Written.{prefixes_of, head_of, write_message};
ghost use Rattle.message_write.specs.Needs.{PrefixesSize, FitsMessage};

use message_rules::{
    LEAST_SIZE, LENGTH_AT, MARKER_SIZE, MOST_SIZE, TYPE_AT, UPDATE, WITHDRAWN_AT, WITHDRAWN_SIZE_AT,
};
use octets::{prefix_size, put_number, put_prefix};
use refusals::{Fault, Refusal};
use routes::{ROUTE_SIZE, check_list, route_at};

// How many bytes the prefixes of a valid list take.
fn prefixes_size(list: &[u32]) -> usize
    requires { ValidList 32 (route_at list.now) (route_count list.now) }
    ensures { PrefixesSize 32 list.now result }
{
    let mut size: usize = 0;
    for i in 0..list.len() / ROUTE_SIZE {
        let r = route_at(list, i);
        size += prefix_size(r.len);
    }
    size
}

// Stores the marker.
fn put_marker(message: &mut [u8])
    requires { marker_size ≤ length message.old }
    ensures { message.new ≡ over (replicate marker_size ones) message.old }
{
    for i in 0..MARKER_SIZE {
        message[i] = 255;
    }
}

// Stores what stands before the prefixes, by the size of these.
fn put_head(message: &mut [u8], size: usize)
    requires { (withdrawn_at ≤ length message.old) × (size ≤ most_size) }
    ensures { message.new ≡ over (head_of size) message.old }
{
    put_marker(message);
    put_number(message, LENGTH_AT, 2, (LEAST_SIZE + size) as u64);
    message[TYPE_AT] = UPDATE;
    put_number(message, WITHDRAWN_SIZE_AT, 2, size as u64);
}

// Stores the prefixes of a valid list after the head.
fn put_prefixes(list: &[u32], message: &mut [u8])
    requires { FitsMessage 32 list.now message.old }
    ensures { message.new ≡ stored message.old withdrawn_at (prefixes_of 32 (route_at list.now) (route_count list.now)) }
{
    let mut at = WITHDRAWN_AT;
    for i in 0..list.len() / ROUTE_SIZE {
        let r = route_at(list, i);
        put_prefix(message, at, r.prefix());
        at += prefix_size(r.len);
    }
}

// Writes the message that withdraws a list; answers how many bytes. Refuses as the list check does: 3 and 8 at place 0, then the first
// route that is at fault, by its number, with its first fault of 4, 5, 6, 7; last 9, the message has over 4,096 bytes or more than are
// lent.
pub fn write_message(list: &[u32], message: &mut [u8]) -> Result<u32, Refusal>
    ensures { outcome (answered result) message.new ≡ write_message 32 list.now message.old }
{
    check_list(list)?;
    let size = prefixes_size(list);
    if MOST_SIZE < LEAST_SIZE + size {
        return Err(Fault::NoRoom.at(0));
    }
    if message.len() < LEAST_SIZE + size {
        return Err(Fault::NoRoom.at(0));
    }
    put_head(message, size);
    put_prefixes(list, message);
    put_number(message, WITHDRAWN_AT + size, 2, 0);
    Ok((LEAST_SIZE + size) as u32)
}

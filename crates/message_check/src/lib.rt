// The check of an UPDATE message, on any bytes: the head, then every prefix of both parts. Whoever applies a message that it accepts
// may take the parts where it says that they lie.
#![tactic(auto)]

ghost use Rattle.std.specs.Prelude.{◌≡◌, ◌+◌, ◌≤◌, length};
ghost use Rattle.message_rules.specs.Message.{least_size, most_size, unmarked};
ghost use Rattle.refusals.specs.Refusals.{number_of, checked};
ghost use Rattle.message_rules.specs.Check.{wrong_length, inner_check, head_check, fault_of, part_check};
ghost use Rattle.message_check.specs.Checked.{checked_as, checked_of, Field};

use message_rules::{
    LEAST_SIZE, LENGTH_AT, MARKER_SIZE, MOST_SIZE, TYPE_AT, UPDATE, WITHDRAWN_AT, WITHDRAWN_SIZE_AT,
};
use octets::{NoPrefix, number_at, prefix_size, take_prefix};
use refusals::{Fault, Refusal};

// Where the parts of an accepted message lie: the withdrawn one from byte 21 to an end, the announced one from an offset to the end
// of the message.
#[derive(Clone, Copy, Debug, PartialEq, Eq)]
pub struct Parts {
    pub end: usize,
    pub start: usize,
}

// Whether some byte of the marker is not all ones.
fn is_unmarked(message: &[u8]) -> bool
    requires { least_size ≤ length message.now }
    ensures { result ≡ unmarked message.now }
{
    for i in 0..MARKER_SIZE {
        if message[i] != 255 {
            return true;
        }
    }
    false
}

// A field of two bytes; those past the end are left out.
fn field_at(message: &[u8], at: usize) -> usize
    ensures { Field message.now at result }
{
    number_at(message, at, 2) as usize
}

// Whether the length that the message states is below 23, above 4,096 or not that of the bytes lent.
fn is_wrong_length(message: &[u8]) -> bool
    ensures { result ≡ wrong_length message.now }
{
    let stated = field_at(message, LENGTH_AT);
    (stated < LEAST_SIZE) | (MOST_SIZE < stated) | !(stated == message.len())
}

// The inner lengths: neither may lie past the end, and two bytes follow the withdrawn part.
fn inner_check(message: &[u8]) -> Result<(), Refusal>
    ensures { checked result ≡ inner_check message.now }
{
    let end = WITHDRAWN_AT + field_at(message, WITHDRAWN_SIZE_AT);
    if message.len() < end + 2 {
        return Err(Fault::BadMessage.at(WITHDRAWN_SIZE_AT as u32));
    }
    let at = end + 2 + field_at(message, end);
    if message.len() < at {
        return Err(Fault::BadMessage.at(end as u32));
    }
    Ok(())
}

// The head: all that stands before and between the parts.
fn head_check(message: &[u8]) -> Result<(), Refusal>
    ensures { checked result ≡ head_check message.now }
{
    if message.len() < LEAST_SIZE {
        return Err(Fault::BadMessage.at(0));
    }
    if is_unmarked(message) {
        return Err(Fault::BadMessage.at(0));
    }
    if is_wrong_length(message) {
        return Err(Fault::BadMessage.at(LENGTH_AT as u32));
    }
    if message[TYPE_AT] == UPDATE {
        return inner_check(message);
    }
    Err(Fault::BadMessage.at(TYPE_AT as u32))
}

// What a message is refused with where no prefix stands.
fn fault_of(none: NoPrefix) -> Fault
    ensures { number_of result ≡ fault_of (Err none) }
{
    match none {
        NoPrefix::Long => Fault::LongPrefix,
        NoPrefix::Cut => Fault::BadMessage,
    }
}

// The first prefix of a part that is at fault, where the part begins at byte `from` of the message.
fn part_check(part: &[u8], from: usize) -> Result<(), Refusal>
    requires { from + length part.now ≤ most_size }
    ensures { checked result ≡ part_check 32 part.now from }
{
    let mut at: usize = 0;
    while at < part.len() {
        match take_prefix(part, at) {
            Ok(p) => {
                at += prefix_size(p.len);
            }
            Err(none) => {
                return Err(fault_of(none).at((from + at) as u32));
            }
        }
    }
    Ok(())
}

// Checks a message. Refuses 14 at 0 under 23 bytes and for the marker, at 16 for the length, at 18 for the type, at 19 for the length of
// the withdrawn part, and where the length of the attributes stands for that one; then prefix by prefix, at its offset, 4 for a length
// above 32 and 14 where it runs past its part.
pub fn check_message(message: &[u8]) -> Result<Parts, Refusal>
    ensures { checked_as result ≡ checked_of 32 message.now }
{
    head_check(message)?;
    let end = WITHDRAWN_AT + field_at(message, WITHDRAWN_SIZE_AT);
    part_check(&message[WITHDRAWN_AT..end], WITHDRAWN_AT)?;
    let at = end + 2 + field_at(message, end);
    part_check(&message[at..], at)?;
    Ok(Parts { end, start: at })
}

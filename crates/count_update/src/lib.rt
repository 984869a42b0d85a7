// The updates that keep the counts in step: the first checks, the update of the rows alone, and then the counts that changed.
#![tactic(auto)]

ghost use Rattle.std.specs.Prelude.{◌≡◌, ℕ};
ghost use Rattle.refusals.specs.Refusals.{fault_number, updated};
ghost use Rattle.table_update.specs.Calls.{keeping};
ghost use Rattle.promise.specs.Over.{outcome, over};
ghost use Rattle.table_rows.specs.Words.{five_words};
ghost use Rattle.table_update.specs.History.{announcing, withdrawing};
ghost use Rattle.message_calls.specs.History.{single, message};
ghost use Rattle.count_rules.specs.Tally.{differ};
ghost use Rattle.count_rules.specs.Counted.{counted, passed, message_fault, counts_of, first_check, counted_on};
ghost use Rattle.count_update.specs.Needs.{FreshLent, Countable};

use count_make::make;
use count_rules::PORTS;
use message_check::check_message;
use prefix::Prefix;
use refusals::{Answer, Fault, Refusal};
use routes::{Route, is_port};

// Whether one of the first 4,095 counts is not the fresh one.
fn counts_differ(counts: &[u64], fresh: &[u64]) -> bool
    requires { FreshLent counts.now fresh.now }
    ensures { result ≡ differ counts.now fresh.now }
{
    for port in 0..PORTS {
        if counts[port] != fresh[port] {
            return true;
        }
    }
    false
}

// Stores those of the fresh counts whose port gained or lost addresses.
fn store_changed(counts: &mut [u64], fresh: &[u64])
    requires { FreshLent counts.old fresh.now }
    ensures { counts.new ≡ over fresh.now counts.old }
{
    for port in 0..PORTS {
        if counts[port] == fresh[port] {
            continue;
        }
        counts[port] = fresh[port];
    }
}

// The first checks of every update of a table of n rows with counts; `fault` is what its arguments are refused with. Refuses: 9 at 0,
// fewer than 4,095 counts are lent; then as `fault` does; then 11 at 0, the table is not in good order or the counts are not its own.
fn checked_first(
    fault: Result<(), Refusal>,
    rows: &[u32],
    n: u32,
    counts: &[u64],
) -> Result<(), Refusal>
    ensures { passed n result ≡ first_check five_words 32 (passed n fault) rows.now n counts.now }
{
    if counts.len() < PORTS {
        return Err(Fault::NoRoom.at(0));
    }
    fault?;
    let mut fresh = [0u64; PORTS];
    if make(rows, n, &mut fresh).is_err() {
        return Err(Fault::NotInOrder.at(0));
    }
    if counts_differ(counts, &fresh) {
        return Err(Fault::NotInOrder.at(0));
    }
    Ok(())
}

// The same checks for updates that answer by number; the count answered is n. `fault` is any answer, also one that no `Refusal` stands
// for: where it decides, it is answered as it is, with its place and its count.
pub fn first_check(fault: Answer, rows: &[u32], n: u32, counts: &[u64]) -> Answer
    ensures { result ≡ first_check five_words 32 fault rows.now n counts.now }
{
    if fault.number != 0 && counts.len() >= PORTS {
        return fault;
    }
    Answer {
        count: n,
        ..Answer::from(checked_first(Ok(()), rows, n, counts))
    }
}

// The counts of a table in good order, over those of the table that it was.
fn recount(rows: &[u32], n: u32, counts: &mut [u64])
    requires { Countable rows.now n counts.old }
    ensures { counts.new ≡ over (counts_of five_words 32 rows.now n) counts.old }
{
    let mut fresh = [0u64; PORTS];
    let _ = make(rows, n, &mut fresh);
    store_changed(counts, &fresh);
}

// What is wrong with a route or a prefix, as a refusal: at place 0.
fn at_0(fault: Result<(), Fault>) -> Result<(), Refusal>
    ensures { (n : ℕ) → passed n result ≡ keeping (fault_number fault) n }
{
    Ok(fault?)
}

// What a message and its port are refused with, whatever the table.
fn message_fault(message: &[u8], port: u32) -> Result<(), Refusal>
    ensures { (n : ℕ) → passed n result ≡ message_fault 32 message.now port n }
{
    if let Err(refusal) = check_message(message) {
        return Err(refusal);
    }
    if is_port(port) {
        Ok(())
    } else {
        Err(Fault::WrongPort.at(0))
    }
}

// Announces a route to a table of n routes, and keeps the counts in step; the count answered is the new n. Refuses as the first checks
// do, with 4, 5 and 6 for the arguments; then 9 at 0, the prefix is new and the table full. It needs some 190 KB of stack.
pub fn announce(rows: &mut [u32], n: u32, q: Route, counts: &mut [u64]) -> Result<u32, Refusal>
    ensures { counted (updated n result) rows.new counts.new ≡ counted_on five_words 32 rows.old n counts.old (single (announcing q)) }
{
    let fault = at_0(routes::route_fault(q));
    checked_first(fault, rows, n, counts)?;
    let done = table_update::announce(rows, n, q)?;
    recount(rows, done, counts);
    Ok(done)
}

// Withdraws a prefix from a table of n routes, and keeps the counts in step; the count answered is the new n. Refuses as the first
// checks do, with 4 and 5 for the arguments; then 10 at 0, the prefix is not held. It needs some 190 KB of stack.
pub fn withdraw(rows: &mut [u32], n: u32, p: Prefix, counts: &mut [u64]) -> Result<u32, Refusal>
    ensures { counted (updated n result) rows.new counts.new ≡ counted_on five_words 32 rows.old n counts.old (single (withdrawing p.value p.len)) }
{
    let fault = at_0(routes::prefix_fault(p));
    checked_first(fault, rows, n, counts)?;
    let done = table_update::withdraw(rows, n, p)?;
    recount(rows, done, counts);
    Ok(done)
}

// Applies a message to a table of n routes, whole or not at all, and keeps the counts in step; the count answered is the new n. Refuses
// as the first checks do, with 14 and 4 for the message and 6 for the port; then 9 at 0, the final set exceeds the capacity. It needs some
// 190 KB of stack.
pub fn apply(
    bytes: &[u8],
    port: u32,
    rows: &mut [u32],
    n: u32,
    counts: &mut [u64],
) -> Result<u32, Refusal>
    ensures { counted (updated n result) rows.new counts.new ≡ counted_on five_words 32 rows.old n counts.old (message bytes.now port) }
{
    let fault = message_fault(bytes, port);
    checked_first(fault, rows, n, counts)?;
    let done = message_apply::apply(bytes, port, rows, n)?;
    recount(rows, done, counts);
    Ok(done)
}

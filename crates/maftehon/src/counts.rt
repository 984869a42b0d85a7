// The addresses per port, made afresh, and the updates of a table that keep them in step.
ghost use Rattle.std.specs.Prelude.{◌≡◌};
ghost use Rattle.promise.specs.Over.{outcome};
ghost use Rattle.routes.specs.Routes.{route};
ghost use Rattle.table_rows.specs.Words.{five_words};
ghost use Rattle.table_update.specs.History.{announcing, withdrawing};
ghost use Rattle.message_calls.specs.History.{single, message as applying};
ghost use Rattle.count_rules.specs.Counted.{make_counts, counted_on};
ghost use Rattle.refusals.specs.Reply.{reply};
ghost use Rattle.maftehon.specs.Reply.{replied_place, booked, replied_book};

use prefix::Prefix;
use refusals::Answer;
use refusals::reply::{counted, placed};
use routes::Route;

pub fn mft_counts_make(rows: &[u32], n: u32, counts: &mut [u64], answer: &mut [u32; 1]) -> u32
    ensures { outcome (reply result answer.new) counts.new ≡ replied_place (make_counts five_words 32 rows.now n counts.old) }
{
    placed(Answer::from(count_make::make(rows, n, counts)), answer)
}

pub fn mft_counted_announce(
    rows: &mut [u32],
    n: u32,
    value: u32,
    length: u32,
    port: u32,
    counts: &mut [u64],
    answer: &mut [u32; 2],
) -> u32
    ensures { booked (reply result answer.new) rows.new counts.new ≡ replied_book (counted_on five_words 32 rows.old n counts.old (single (announcing (route value length port)))) }
{
    counted(
        Answer::updated(
            n,
            count_update::announce(
                rows,
                n,
                Route {
                    value,
                    len: length,
                    port,
                },
                counts,
            ),
        ),
        answer,
    )
}

pub fn mft_counted_withdraw(
    rows: &mut [u32],
    n: u32,
    value: u32,
    length: u32,
    counts: &mut [u64],
    answer: &mut [u32; 2],
) -> u32
    ensures { booked (reply result answer.new) rows.new counts.new ≡ replied_book (counted_on five_words 32 rows.old n counts.old (single (withdrawing value length))) }
{
    counted(
        Answer::updated(
            n,
            count_update::withdraw(rows, n, Prefix { value, len: length }, counts),
        ),
        answer,
    )
}

pub fn mft_counted_message(
    message: &[u8],
    port: u32,
    rows: &mut [u32],
    n: u32,
    counts: &mut [u64],
    answer: &mut [u32; 2],
) -> u32
    ensures { booked (reply result answer.new) rows.new counts.new ≡ replied_book (counted_on five_words 32 rows.old n counts.old (applying message.now port)) }
{
    counted(
        Answer::updated(n, count_update::apply(message, port, rows, n, counts)),
        answer,
    )
}

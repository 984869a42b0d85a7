// UPDATE messages of RFC 4271, written; `counts` has the one that is applied.
ghost use Rattle.std.specs.Prelude.{◌≡◌};
ghost use Rattle.promise.specs.Over.{outcome};
ghost use Rattle.message_rules.specs.Written.{write_message};
ghost use Rattle.refusals.specs.Reply.{reply, replied};

use message_write::write_message;
use refusals::Answer;
use refusals::reply::counted;

pub fn mft_message_write(list: &[u32], message: &mut [u8], answer: &mut [u32; 2]) -> u32
    ensures { outcome (reply result answer.new) message.new ≡ replied (write_message 32 list.now message.old) }
{
    counted(Answer::from(write_message(list, message)), answer)
}

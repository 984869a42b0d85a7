// How an answer is laid out for C: the refusal's number is returned, the place and the results are stored.
ghost use Rattle.std.specs.Prelude.{◌≡◌};
ghost use Rattle.refusals.specs.Reply.{reply, placed, counted, looked};

use crate::Answer;
use crate::found::Found;

// The place alone.
pub fn placed(x: Answer, answer: &mut [u32; 1]) -> u32
    ensures { reply result answer.new ≡ placed x }
{
    *answer = [x.place];
    x.number
}

// The place, and the one result.
pub fn counted(x: Answer, answer: &mut [u32; 2]) -> u32
    ensures { reply result answer.new ≡ counted x }
{
    *answer = [x.place, x.count];
    x.number
}

// Place 0, a lookup's port, and the rows or nodes read.
pub fn looked(x: Found, answer: &mut [u32; 3]) -> u32
    ensures { reply result answer.new ≡ looked x }
{
    *answer = [0, x.port, x.reads];
    x.number
}

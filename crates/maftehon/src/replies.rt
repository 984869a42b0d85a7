// How the answers of the builds of an image and of segment tables, and of the debug page, are laid out for C; `refusals` has the other
// layouts.
ghost use Rattle.std.specs.Prelude.{◌≡◌, ◌+◌, ◌^◌, ◌<◌};
ghost use Rattle.refusals.specs.Reply.{reply};
ghost use Rattle.maftehon.specs.Reply.{built, blocked, located};

use image_build::Built;
use segment_rules::{Built as SegmentsBuilt, Part};

// The place, and the nodes and ports written.
pub(crate) fn built(x: Built, answer: &mut [u32; 3]) -> u32
    ensures { reply result answer.new ≡ built x }
{
    *answer = [x.place, x.nodes, x.ports];
    x.number
}

// The place, and the packed segments, the plain segments and the last blocks.
pub(crate) fn blocked(x: SegmentsBuilt, answer: &mut [u32; 4]) -> u32
    ensures { reply result answer.new ≡ blocked x }
{
    *answer = [x.place, x.packed, x.plain, x.last];
    x.number
}

// Place 0, the offset of the first entry in its store, and how many entries there are.
pub(crate) fn located(x: Part, answer: &mut [u32; 3]) -> u32
    requires { x.from + x.count < 2 ^ 32 }
    ensures { reply result answer.new ≡ located x }
{
    *answer = [0, x.from as u32, x.count as u32];
    0
}

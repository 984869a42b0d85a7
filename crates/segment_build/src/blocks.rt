// The blocks that longer routes begin with: a pass over the list meets each once, in order.
ghost use Rattle.std.specs.Prelude.{◌≡◌, ◌^◌, ◌≤◌, ◌<◌};
ghost use Rattle.bits.specs.Prefix.{head};
ghost use Rattle.segment_build.specs.Needs.{is_new};

use routes::Route;

// The first bits of a route's prefix, so many, as the number of a block.
pub(crate) fn block_of(route: Route, bits: u32) -> usize
    requires { bits ≤ 32 }
    ensures { (result ≡ head 32 bits route.value) × (result < 2 ^ 32) }
{
    ((route.value as u64) >> (32 - bits)) as usize
}

// Whether a route begins with a block of so many bits, is longer, and the block is `next` or a later one.
pub(crate) fn begins_new(route: Route, bits: u32, next: usize) -> bool
    requires { bits ≤ 32 }
    ensures { result ≡ is_new 32 bits route next }
{
    (bits < route.len) & (next <= block_of(route, bits))
}

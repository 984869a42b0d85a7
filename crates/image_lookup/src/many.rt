// Many lookups in an image in one call: the single lookups one after the other.
ghost use Rattle.std.specs.Prelude.{◌≡◌};
ghost use Rattle.promise.specs.Over.{outcome};
ghost use Rattle.refusals.specs.Refusals.{answered};
ghost use Rattle.image_rules.specs.Lookup.{lookup_words};
ghost use Rattle.many_rules.specs.Many.{lookup_many};
ghost use Rattle.image_lookup.specs.Many.{many_words};

use crate::lookup;
use many_rules::{Lookup, element_of, lookup_each};
use refusals::{Fault, Refusal};

// The lookup in an image at a stride, which is a constant: the compiler then makes a loop for that stride alone, and unfolds the walk in it.
#[derive(Clone, Copy)]
struct Walk<'a, const STRIDE: u32> {
    nodes: &'a [u32],
    ports: &'a [u16],
}

impl<const STRIDE: u32> Lookup for Walk<'_, STRIDE> {
    ghost look = { λ walk. lookup_words 32 STRIDE walk.nodes.now walk.ports.now };

    fn element(&self, address: u32) -> u16 {
        element_of(lookup(STRIDE, self.nodes, self.ports, address))
    }
}

// Looks each address up, and stores its port in its element of `out`, or 65,535 where the lookup is refused 11; answers 1 if some element is
// 65,535, else 0. Refuses 12, then 9 where `out` is shorter than the addresses, both at place 0.
pub fn lookup_many(
    stride: u32,
    nodes: &[u32],
    ports: &[u16],
    addresses: &[u32],
    out: &mut [u16],
) -> Result<u32, Refusal>
    ensures { outcome (answered result) out.new ≡ many_words 32 stride nodes.now ports.now addresses.now out.old }
{
    match stride {
        1 => lookup_each(&Walk::<1> { nodes, ports }, addresses, out),
        2 => lookup_each(&Walk::<2> { nodes, ports }, addresses, out),
        4 => lookup_each(&Walk::<4> { nodes, ports }, addresses, out),
        _ => Err(Fault::WrongStride.at(0)),
    }
}

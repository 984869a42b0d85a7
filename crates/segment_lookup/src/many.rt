// Many lookups in segment tables in one call: the single lookups one after the other.
ghost use Rattle.std.specs.Prelude.{◌≡◌, ◌%◌, ◌^◌};
ghost use Rattle.promise.specs.Over.{outcome};
ghost use Rattle.refusals.specs.Refusals.{answered};
ghost use Rattle.segment_rules.specs.Lookup.{first_read, lookup_in};
ghost use Rattle.many_rules.specs.Many.{element, lookup_many};

use crate::{packed_read, plain_read, port_read};
use many_rules::{Lookup, UNFOUND, element_of, lookup_each};
use refusals::Refusal;
use segment_rules::{FIRST_SIZE, PLAIN_POINTER, POINTER};

// The element of an address, by its entry of the first table. The single lookup has the same three ways in a function of its own: what each
// way calls is small enough to be unfolded in both, and the three together are not.
fn first_element(packed: &[u16], plain: &[u16], last: &[u16], entry: u32, address: u32) -> u16
    ensures { result ≡ element (first_read packed.now plain.now last.now entry address) % 2 ^ 16 }
{
    if entry < POINTER {
        return element_of(port_read(entry, 1));
    }
    if entry < PLAIN_POINTER {
        return element_of(packed_read(packed, last, entry - POINTER, address));
    }
    element_of(plain_read(plain, last, entry - PLAIN_POINTER, address))
}

// The four stores that are lent, in which addresses are looked up.
#[derive(Clone, Copy)]
struct Tables<'a> {
    first: &'a [u16],
    packed: &'a [u16],
    plain: &'a [u16],
    last: &'a [u16],
}

impl Lookup for Tables<'_> {
    ghost look = { λ tables. lookup_in tables.first.now tables.packed.now tables.plain.now tables.last.now };

    fn element(&self, address: u32) -> u16 {
        if self.first.len() < FIRST_SIZE {
            return UNFOUND;
        }
        let at = (address / 65536) as usize;
        first_element(
            self.packed,
            self.plain,
            self.last,
            u32::from(self.first[at]),
            address,
        )
    }
}

// Looks each address up, and stores its port in its element of `out`, or 65,535 where the lookup is refused 11; answers 1 if some
// element is 65,535, else 0. Refuses 9 at place 0 where `out` is shorter than the addresses.
pub fn lookup_many(
    first: &[u16],
    packed: &[u16],
    plain: &[u16],
    last: &[u16],
    addresses: &[u32],
    out: &mut [u16],
) -> Result<u32, Refusal>
    ensures { outcome (answered result) out.new ≡ lookup_many (lookup_in first.now packed.now plain.now last.now) addresses.now out.old }
{
    let tables = Tables {
        first,
        packed,
        plain,
        last,
    };
    lookup_each(&tables, addresses, out)
}

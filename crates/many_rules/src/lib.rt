// Many lookups in one call, over any lookup: definitions and laws, and the loop, over a `Lookup`, as the calls of this library run it, and
// over a closure.
#![tactic(auto)]

ghost use Rattle.std.specs.Prelude.{◌≡◌, ℕ, ◌%◌, ◌^◌};
ghost use Rattle.promise.specs.Over.{outcome};
ghost use Rattle.refusals.specs.Refusals.{found_of, accepted, answered};
ghost use Rattle.refusals.specs.declared.found.Found.{Found};
ghost use Rattle.many_rules.specs.Many.{element, told, lookup_many, Gives};

use refusals::found::{Lost, Reached};
use refusals::{Fault, Refusal};

// The element of an address whose lookup is refused. No port is as large.
pub const UNFOUND: u16 = 65535;

// What a lookup leaves in its element: its port, or 65,535 where it is refused. A port that 16 bits cannot hold, which no lookup
// answers, is cut to them.
pub fn element_of(x: Result<Reached, Lost>) -> u16
    ensures { result ≡ element (found_of x) % 2 ^ 16 }
{
    match x {
        Ok(reached) => (reached.port % 65536) as u16,
        Err(_) => UNFOUND,
    }
}

// What the call answers: 1 if some element is 65,535, else 0.
pub fn told(some: bool) -> u32
    ensures { accepted result ≡ told some }
{
    u32::from(some)
}

// A lookup, as many are made of in one call.
pub trait Lookup {
    // What it answers at an address.
    ghost look: { Self → ℕ → Found };

    // What it leaves in the element of an address.
    fn element(&self, address: u32) -> u16
        ensures { result ≡ element (look self.now address) };
}

// Looks each address up, and stores what that leaves in its element of `out`. Answers whether some element is 65,535. Refuses 9 at
// place 0 where `out` is shorter than the addresses.
pub fn lookup_each<L: Lookup>(
    lookup: &L,
    addresses: &[u32],
    out: &mut [u16],
) -> Result<u32, Refusal>
    ensures { outcome (answered result) out.new ≡ lookup_many (L.look lookup.now) addresses.now out.old }
{
    if out.len() < addresses.len() {
        return Err(Fault::NoRoom.at(0));
    }
    let mut some = false;
    for i in 0..addresses.len() {
        let found = lookup.element(addresses[i]);
        some = (found == UNFOUND) | some;
        out[i] = found;
    }
    Ok(told(some))
}

// Looks each address up by `element`, which gives what its lookup leaves, and stores that in its element of `out`; answers and refuses as
// `lookup_each` does. All of this is promised for a closure that gives what some lookup leaves (`Gives`), and nothing for one whose own
// promise allows several elements at an address. No `Lookup` can be made of every closure, so it does not call `lookup_each`.
pub fn lookup_many<F: Fn(u32) -> u16>(
    element: F,
    addresses: &[u32],
    out: &mut [u16],
) -> Result<u32, Refusal>
    requires { F.IsAlwaysCallable element }
    ensures { (look : ℕ → Found) → Gives (F.post element) look → outcome (answered result) out.new ≡ lookup_many look addresses.now out.old }
{
    if out.len() < addresses.len() {
        return Err(Fault::NoRoom.at(0));
    }
    let mut some = false;
    for i in 0..addresses.len() {
        let given = element(addresses[i]);
        some = (given == UNFOUND) | some;
        out[i] = given;
    }
    Ok(told(some))
}

#[cfg(test)]
mod tests {
    use super::*;

    #[test]
    fn looks_up_by_a_closure(rt: HostRuntime) {
        let port = 7;
        let element = |address: u32| match address / 16777216 {
            10 => port,
            11 => 0,
            _ => UNFOUND,
        };
        let mut out = [8; 4];
        let found = lookup_many(element, &[0x0A010203, 0x0B000000], &mut out);
        assert_eq!(rt; found, Ok(0));
        assert_eq!(rt; out, [7, 0, 8, 8]);
        let found = lookup_many(element, &[0x0C000000, 0x0B000001, 0x0AFFFFFF], &mut out);
        assert_eq!(rt; found, Ok(1));
        assert_eq!(rt; out, [65535, 0, 7, 8]);
        let found = lookup_many(element, &[0x0A000000; 5], &mut out);
        assert_eq!(rt; found, Err(Fault::NoRoom.at(0)));
        assert_eq!(rt; out, [65535, 0, 7, 8]);
    }
}

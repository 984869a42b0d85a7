// The stretches of a node's slots: the routes that begin with the slot's bits, found within the stretch of its node. The search for one
// resumes where that for the slot before ended. Every function answers for any list, any stretch and any depth.
#![tactic(auto)]

ghost use Rattle.std.specs.Prelude.{◌≡◌, cond, ◌-◌, ◌≤◌};
ghost use Rattle.bits.specs.Prefix.{matches};
ghost use Rattle.routes.specs.Routes.{route_at};
ghost use Rattle.image_stretch.specs.Stretches.{past, carried, last_from, under, slot_stretch_at, goes_on, leaf_port, address_of, slot_address};
ghost use Rattle.image_search.specs.Search.{seek_from, clear_to, search_from, search_after};

use image_stretch::{HALF_WORD, Stretch};
use prefix::Prefix;
use routes::{Route, route_at};

// What a search has found: the route at which it ended, and the port of the last match that it passed.
#[derive(Clone, Copy, Debug, PartialEq, Eq)]
struct Sought {
    route: usize,
    port: u32,
}

// Where the search for a slot's stretch resumes: from `short` on a route may match the slot, the routes from `route` on may lie in it,
// and the slots before `clear` are leaves with the node's port.
#[derive(Clone, Copy, Debug, PartialEq, Eq)]
pub struct Search {
    pub short: usize,
    pub route: usize,
    pub clear: u32,
}

// The first route of lo..hi whose value is no address of the prefix; hi if all are.
fn first_apart(list: &[u32], place: Prefix, lo: usize, hi: usize) -> usize
    ensures { result ≡ past (under 32 (route_at list.now) place.value place.len) (hi - lo) lo }
{
    for i in lo..hi {
        if !place.matches(route_at(list, i).value) {
            return i;
        }
    }
    lo.max(hi)
}

// A route's port, in half a word: a valid one fits.
fn port_of(route: Route) -> u32
    ensures { result ≡ carried route }
{
    route.port % HALF_WORD
}

// The route's port if its prefix matches the address, else the port so far.
fn port_if(route: Route, address: u32, port: u32) -> u32
    ensures { result ≡ cond (matches 32 route.value route.len address) (carried route) port }
{
    if route.prefix().matches(address) {
        port_of(route)
    } else {
        port
    }
}

// The port of the last route of lo..hi that matches the address, else the port inherited: the last match is the longest.
fn last_match(list: &[u32], address: u32, best: u32, lo: usize, hi: usize) -> u32
    ensures { result ≡ last_from 32 (route_at list.now) address best lo (hi - lo) }
{
    let mut port = best;
    for i in lo..hi {
        port = port_if(route_at(list, i), address, port);
    }
    port
}

// The first route of lo..hi that does not stand before the prefix, hi if all do; and the port of the last route passed that matches the
// prefix's first address, else the port so far. One pass finds both.
fn seek(list: &[u32], place: Prefix, lo: usize, hi: usize, best: u32) -> Sought
    ensures { result ≡ seek_from 32 (route_at list.now) place.value place.len best lo hi }
{
    let mut port = best;
    for i in lo..hi {
        let route = route_at(list, i);
        if !route.prefix().precedes(place) {
            return Sought { route: i, port };
        }
        port = port_if(route, place.value, port);
    }
    Sought {
        route: lo.max(hi),
        port,
    }
}

// The stretch of the slot with the bits of a prefix, within its node's stretch x, and the port that it inherits. The search starts at
// route `at`: at x.lo, or where an earlier slot's stretch ended. Of the routes before it only those from `short` on may match.
fn slot_stretch(list: &[u32], x: Stretch, short: usize, at: usize, place: Prefix) -> Stretch
    ensures { result ≡ slot_stretch_at 32 (route_at list.now) x short at place.value place.len }
{
    let inherited = last_match(list, place.value, x.best, short, at);
    let found = seek(list, place, at, x.hi, inherited);
    let hi = first_apart(list, place, found.route, x.hi);
    Stretch {
        lo: found.route,
        hi,
        depth: place.len,
        best: found.port,
    }
}

// The bits of an address past the first (depth) ones.
fn bits_past(depth: u32) -> u32
    ensures { (result ≡ 32 - depth) × (result ≤ 32) }
{
    32u32.saturating_sub(depth)
}

// The first address of a node: that of any route in it. Only the root may have none.
pub fn address_of(list: &[u32], x: Stretch) -> u32
    ensures { result ≡ address_of 32 (route_at list.now) x }
{
    if x.hi <= x.lo {
        return 0;
    }
    Prefix::new(route_at(list, x.lo).value, x.depth).first()
}

// A node's slots: the node's stretch x of a list, its first address, the length of the slots' prefixes, and how many slots there are.
#[derive(Clone, Copy)]
pub struct Slots<'a> {
    pub list: &'a [u32],
    pub x: Stretch,
    pub address: u32,
    pub depth: u32,
    pub slots: u32,
}

impl Slots<'_> {
    // The stretch of slot j: the slot's bits are its prefix.
    pub fn find_slot(self, search: Search, j: u32) -> Stretch
        ensures { result ≡ slot_stretch_at 32 (route_at self.entry.list.now) self.entry.x search.short search.route (slot_address 32 self.entry.address self.entry.depth j) self.entry.depth }
    {
        let span = 1u64 << bits_past(self.depth);
        let value = (self.address as u64 + j as u64 * span) % 4294967296;
        slot_stretch(
            self.list,
            self.x,
            search.short,
            search.route,
            Prefix::new(value as u32, self.depth),
        )
    }

    // How many slots come before the one in which the next route lies, which is that at `at`; all of them if the node has no such route.
    fn clear_to(self, at: usize) -> u32
        ensures { result ≡ clear_to 32 (route_at self.entry.list.now) self.entry.slots self.entry.x at self.entry.address self.entry.depth }
    {
        if self.x.hi <= at {
            return self.slots;
        }
        let value = route_at(self.list, at).value;
        if value < self.address {
            return 0;
        }
        let slot = ((value - self.address) as u64) >> bits_past(self.depth);
        if self.slots as u64 <= slot {
            return self.slots;
        }
        slot as u32
    }

    // The search from route `at` on, where no route of the node before it may match a slot.
    pub fn search_from(self, at: usize) -> Search
        ensures { result ≡ search_from 32 (route_at self.entry.list.now) self.entry.slots self.entry.x at self.entry.address self.entry.depth }
    {
        Search {
            short: at,
            route: at,
            clear: self.clear_to(at),
        }
    }

    // The search after the slot with the stretch y. The routes in a slot match no later one, and what the search passes on the way to a
    // slot is shorter than the slots, and may match all that follow.
    pub fn search_after(self, short: usize, y: Stretch) -> Search
        ensures { result ≡ search_after 32 (route_at self.entry.list.now) self.entry.slots self.entry.x short y self.entry.address self.entry.depth }
    {
        if y.lo == short {
            return self.search_from(y.hi);
        }
        Search {
            short,
            route: y.hi,
            clear: 0,
        }
    }
}

// Whether a route longer than the slot's bits begins with them: if any in its stretch is longer, the last one is.
pub fn goes_on(list: &[u32], y: Stretch) -> bool
    ensures { result ≡ goes_on (route_at list.now) y }
{
    if y.hi <= y.lo {
        return false;
    }
    y.depth < route_at(list, y.hi - 1).len
}

// The port of a leaf: that of its own prefix, else the one inherited.
pub fn leaf_port(list: &[u32], y: Stretch) -> u32
    ensures { result ≡ leaf_port (route_at list.now) y }
{
    if y.lo < y.hi {
        return port_of(route_at(list, y.lo));
    }
    y.best
}

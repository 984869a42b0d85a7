// The route list: its refusals, its check and its plain scan. Three words a route: value, length, port.
#![tactic(auto)]

ghost use Rattle.std.specs.Prelude.{◌≡◌, cond, get_or};
ghost use Rattle.prefix.specs.Prefixes.{prefix};
ghost use Rattle.refusals.specs.Refusals.{fault_number, checked, answered};
ghost use Rattle.routes.specs.Routes.{route_at, store_route};
ghost use Rattle.routes.specs.Check.{is_port, prefix_fault, route_fault, fault_at, list_check};
ghost use Rattle.routes.specs.Scan.{route_matches, list_scan};

use prefix::Prefix;
use refusals::{Fault, Refusal};

// A route: a prefix and a port.
#[derive(Clone, Copy)]
pub struct Route {
    pub value: u32,
    pub len: u32,
    pub port: u32,
}

// "At most 4,096 routes."
pub const MOST_ROUTES: usize = 4096;

// "A route is a prefix and a port, 1..4094."
pub const LAST_PORT: u32 = 4094;

// The words of a route in a list: value, length, port.
pub const ROUTE_SIZE: usize = 3;

impl Route {
    // No route: port 0 is never a route's port.
    pub const NONE: Route = Route {
        value: 0,
        len: 0,
        port: 0,
    };

    // The route's prefix, for the match test and the order.
    pub fn prefix(self) -> Prefix
        ensures { result ≡ prefix self.value self.len }
    {
        Prefix::new(self.value, self.len)
    }
}

// Whether a route may have the port: 1..4094.
pub fn is_port(port: u32) -> bool
    ensures { result ≡ is_port port }
{
    (0 < port) & (port <= LAST_PORT)
}

// Whether a prefix may be a route's. Refuses 4, its length is above 32; 5, bits are set past its length.
pub fn prefix_fault(p: Prefix) -> Result<(), Fault>
    ensures { fault_number result ≡ prefix_fault 32 p.value p.len 0 }
{
    let len = p.len;
    if 32 < len {
        return Err(Fault::LongPrefix);
    }
    if p.is_clear() {
        Ok(())
    } else {
        Err(Fault::SpareBits)
    }
}

// Whether a route by itself may stand in a list. Refuses 4 and 5 on its prefix; 6, its port is outside 1..4094.
pub fn route_fault(route: Route) -> Result<(), Fault>
    ensures { fault_number result ≡ route_fault 32 route 0 }
{
    prefix_fault(route.prefix())?;
    if is_port(route.port) {
        Ok(())
    } else {
        Err(Fault::WrongPort)
    }
}

// A word of a list; 0 past its end.
fn word_at(list: &[u32], at: usize) -> u32
    ensures { result ≡ get_or list.now at 0 }
{
    if at < list.len() { list[at] } else { 0 }
}

// What there is of a route that is not lent whole: words past the end of the list count as 0.
fn cut_route(list: &[u32], i: usize) -> Route
    ensures { result ≡ route_at list.now i }
{
    if list.len() / ROUTE_SIZE < i {
        return Route::NONE;
    }
    let at = i * ROUTE_SIZE;
    Route {
        value: word_at(list, at),
        len: word_at(list, at + 1),
        port: word_at(list, at + 2),
    }
}

// Route i of a list. One test is enough where it is lent whole, as it is in every list that was checked.
pub fn route_at(list: &[u32], i: usize) -> Route
    ensures { result ≡ route_at list.now i }
{
    if i < list.len() / ROUTE_SIZE {
        let at = i * ROUTE_SIZE;
        return Route {
            value: list[at],
            len: list[at + 1],
            port: list[at + 2],
        };
    }
    cut_route(list, i)
}

// Stores route i of a list, where it is lent whole; no other word changes.
pub fn store_route(list: &mut [u32], i: usize, r: Route)
    ensures { list.new ≡ store_route list.old i r }
{
    if i < list.len() / ROUTE_SIZE {
        let at = i * ROUTE_SIZE;
        list[at] = r.value;
        list[at + 1] = r.len;
        list[at + 2] = r.port;
    }
}

// Whether route i of a list may stand there. Refuses 4, 5, 6 on it by itself; 7, it is not above the one before.
fn fault_at(list: &[u32], i: usize) -> Result<(), Fault>
    ensures { fault_number result ≡ fault_at 32 (route_at list.now) i }
{
    let route = route_at(list, i);
    route_fault(route)?;
    if i == 0 {
        return Ok(());
    }
    let before = route_at(list, i - 1);
    if before.prefix().precedes(route.prefix()) {
        Ok(())
    } else {
        Err(Fault::NotAbove)
    }
}

// Checks a list. Refuses 3, no whole routes, and 8, more than 4,096, at place 0; then the first route that is at fault,
// by its number from 0, with its first fault of 4, 5, 6, 7.
pub fn check_list(list: &[u32]) -> Result<(), Refusal>
    ensures { checked result ≡ list_check 32 list.now }
{
    if list.len() % ROUTE_SIZE != 0 {
        return Err(Fault::WrongSize.at(0));
    }
    let n = list.len() / ROUTE_SIZE;
    if MOST_ROUTES < n {
        return Err(Fault::TooManyRoutes.at(0));
    }
    for i in 0..n {
        if let Err(fault) = fault_at(list, i) {
            return Err(fault.at(i as u32));
        }
    }
    Ok(())
}

// The route's port if it matches the address, else the port so far.
fn port_of_match(route: Route, address: u32, port: u32) -> u32
    ensures { result ≡ cond (route_matches 32 address route) route.port port }
{
    if route.prefix().matches(address) {
        route.port
    } else {
        port
    }
}

// The plain scan: of the routes that match, the port of the longest; 0 if none matches. Refuses as the check does.
pub fn scan_list(list: &[u32], address: u32) -> Result<u32, Refusal>
    ensures { answered result ≡ list_scan 32 list.now address }
{
    check_list(list)?;
    let mut port = 0;
    for i in 0..list.len() / ROUTE_SIZE {
        // In a valid list a longer match stands after a shorter one: the last match is the longest.
        port = port_of_match(route_at(list, i), address, port);
    }
    Ok(port)
}

// How many nodes the image of a list has, by one pass over the list and with no memory.
#![tactic(auto)]

ghost use Rattle.std.specs.Prelude.{◌≡◌, cond, ◌-◌, ◌/◌, ◌<◌, ◌≤◌};
ghost use Rattle.routes.specs.Bounds.{most_routes};
ghost use Rattle.routes.specs.Routes.{route_at};
ghost use Rattle.image_stretch.specs.Count.{count_at, count_below, nodes_count};
ghost use Rattle.image_count.specs.Counted.{counted_nodes};

use image_numbers::is_stride;
use prefix::Prefix;
use routes::{MOST_ROUTES, ROUTE_SIZE, route_at};

// Whether route i is the last with its first (depth) bits and is longer: it then counts for their node.
fn counts_at(list: &[u32], n: usize, depth: u32, i: usize) -> bool
    requires { i < n }
    ensures { cond result 1 0 ≡ count_at 32 (route_at list.now) n depth i }
{
    let route = route_at(list, i);
    if route.len <= depth {
        return false;
    }
    let next = i + 1;
    if n <= next {
        return true;
    }
    !Prefix::new(route.value, depth).matches(route_at(list, next).value)
}

// The nodes below the root that route i counts for; it counts for none from its length on.
fn count_below(list: &[u32], n: usize, stride: u32, i: usize) -> usize
    requires { (0 < stride) × (stride ≤ 4) × (i < n) }
    ensures { result ≡ count_below 32 (route_at list.now) n stride (32 / stride - 1) stride i }
{
    let len = route_at(list, i).len;
    let mut count = 0;
    for level in 1..32 / stride {
        let depth = stride * level;
        if len <= depth {
            return count;
        }
        count += usize::from(counts_at(list, n, depth, i));
    }
    count
}

// The nodes of the image of the first n routes: the root, and those that the routes count for.
fn count_all(list: &[u32], n: usize, stride: u32) -> usize
    requires { (0 < stride) × (stride ≤ 4) × (n ≤ most_routes) }
    ensures { result ≡ nodes_count 32 (route_at list.now) n stride }
{
    let mut count = 1;
    for i in 0..n {
        count += count_below(list, n, stride, i);
    }
    count
}

// The nodes of the image of a list; 0 for what is no stride, and for more routes than a list may have.
pub fn count_nodes(list: &[u32], stride: u32) -> usize
    ensures { result ≡ counted_nodes 32 list.now stride }
{
    let n = list.len() / ROUTE_SIZE;
    if is_stride(stride) & (n <= MOST_ROUTES) {
        count_all(list, n, stride)
    } else {
        0
    }
}

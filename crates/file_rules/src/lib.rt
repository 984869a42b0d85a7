// The route file: definitions and laws over the width, and what the reader's and the writer's code share.
#![tactic(auto)]

ghost use Rattle.file_rules.specs.File.{RouteBytes};

use octets::prefix_size;

// Byte 0 is the version, 1.
pub const VERSION: u8 = 1;

// The version byte and the four of the size come before the routes.
pub const HEAD_SIZE: usize = 5;

// The bytes of a route in a file: its length, the bytes of its prefix, and two for its port.
pub fn route_size(len: u32) -> usize
    ensures { RouteBytes len result }
{
    prefix_size(len) + 2
}

// The prefixes of a part of a message, one after the other, to the first that does not stand whole.
ghost use Rattle.std.specs.Iterator.{YieldsFirst, item_count};
ghost use Rattle.std.specs.Prelude.{◌≡◌};
ghost use Rattle.message_rules.specs.Message.{prefixes_in};
ghost use Rattle.message_rules.specs.Left.{left};

use octets::{prefix_size, take_prefix};
use prefix::Prefix;

#[derive(Clone, Copy)]
pub struct Prefixes<'a> {
    part: &'a [u8],
    at: usize,
}

impl<'a> Prefixes<'a> {
    pub fn new(part: &'a [u8]) -> Self
        ensures { left result ≡ prefixes_in 32 part.now }
    {
        Self { part, at: 0 }
    }
}

impl<'a> Iterator for Prefixes<'a> {
    type Item = Prefix;

    ghost next_gives = { YieldsFirst left };

    ghost remaining = { item_count left };

    fn next(&mut self) -> Option<Prefix> {
        match take_prefix(self.part, self.at) {
            Ok(prefix) => {
                self.at += prefix_size(prefix.len);
                Some(prefix)
            }
            Err(_) => None,
        }
    }
}

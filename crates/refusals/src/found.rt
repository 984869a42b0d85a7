// What a lookup answers, in a table as in an image.
ghost use Rattle.std.specs.Prelude.{◌≡◌};
ghost use Rattle.refusals.specs.Refusals.{found, lost, found_of};

use crate::Fault;

// The port, 0 where no route matches, and the rows or nodes read.
#[derive(Clone, Copy, Debug, PartialEq, Eq)]
pub struct Reached {
    pub port: u32,
    pub reads: u32,
}

// A lookup that is refused: why, and what was read so far.
#[derive(Clone, Copy, Debug, PartialEq, Eq)]
pub struct Lost {
    pub fault: Fault,
    pub reads: u32,
}

// The same as C is told it: the refusal's number, 0 where it is done; the port; and the rows or nodes read.
#[derive(Clone, Copy)]
pub struct Found {
    pub number: u32,
    pub port: u32,
    pub reads: u32,
}

impl Found {
    // Done: the port, and what was read.
    pub fn found(port: u32, reads: u32) -> Self
        ensures { result ≡ found port reads }
    {
        Self {
            number: 0,
            port,
            reads,
        }
    }

    // A refusal: its number, and what was read so far.
    pub fn lost(number: u32, reads: u32) -> Self
        ensures { result ≡ lost number reads }
    {
        Self {
            number,
            port: 0,
            reads,
        }
    }
}

impl From<Result<Reached, Lost>> for Found {
    ghost from_gives = { λ x found. found ≡ found_of x };

    fn from(x: Result<Reached, Lost>) -> Found {
        match x {
            Ok(r) => Found::found(r.port, r.reads),
            Err(l) => Found::lost(u32::from(l.fault), l.reads),
        }
    }
}

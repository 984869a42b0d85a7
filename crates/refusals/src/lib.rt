// What a call answers, and the published numbers of the refusals.
#![tactic(auto)]

ghost use Rattle.std.specs.Prelude.{◌≡◌};
ghost use Rattle.refusals.specs.Refusals.{number_of, refusal_at, refused, keeping_at, accepted, checked, answered, updated};

pub mod found;
pub mod reply;

// Why a call refuses. 13 is the number of none: it was for more than 8,193 runs, which 4,096 routes cannot have.
#[derive(Clone, Copy, Debug, PartialEq, Eq)]
pub enum Fault {
    ShortFile,
    WrongVersion,
    WrongSize,
    LongPrefix,
    SpareBits,
    WrongPort,
    NotAbove,
    TooManyRoutes,
    NoRoom,
    NotHeld,
    NotInOrder,
    WrongStride,
    BadMessage,
}

// The published number.
impl From<Fault> for u32 {
    ghost from_gives = { λ fault x. x ≡ number_of fault };

    fn from(fault: Fault) -> u32 {
        match fault {
            Fault::ShortFile => 1,
            Fault::WrongVersion => 2,
            Fault::WrongSize => 3,
            Fault::LongPrefix => 4,
            Fault::SpareBits => 5,
            Fault::WrongPort => 6,
            Fault::NotAbove => 7,
            Fault::TooManyRoutes => 8,
            Fault::NoRoom => 9,
            Fault::NotHeld => 10,
            Fault::NotInOrder => 11,
            Fault::WrongStride => 12,
            Fault::BadMessage => 14,
        }
    }
}

// A refusal: why, and the place.
#[derive(Clone, Copy, Debug, PartialEq, Eq)]
pub struct Refusal {
    pub fault: Fault,
    pub place: u32,
}

impl Fault {
    // The refusal at a place.
    pub fn at(self, place: u32) -> Refusal
        ensures { result ≡ refusal_at self place }
    {
        Refusal { fault: self, place }
    }
}

// At place 0.
impl From<Fault> for Refusal {
    ghost from_gives = { λ fault r. r ≡ refusal_at fault 0 };

    fn from(fault: Fault) -> Refusal {
        fault.at(0)
    }
}

// What C is told of a call: the refusal's number and place, both 0 where it is done, and its one other result.
#[derive(Clone, Copy)]
pub struct Answer {
    pub number: u32,
    pub place: u32,
    pub count: u32,
}

impl Answer {
    // A refusal: its number and its place, and the other result 0.
    pub fn refused(number: u32, place: u32) -> Self
        ensures { result ≡ refused number place }
    {
        Self {
            number,
            place,
            count: 0,
        }
    }

    // A refusal of an update, which answers the number of routes: it stays as it was.
    pub fn keeping(number: u32, place: u32, n: u32) -> Self
        ensures { result ≡ keeping_at number place n }
    {
        let mut answer = Self::refused(number, place);
        answer.count = n;
        answer
    }

    // Done, with a result.
    pub fn accepted(count: u32) -> Self
        ensures { result ≡ accepted count }
    {
        Self {
            number: 0,
            place: 0,
            count,
        }
    }

    // An update of a table of n routes.
    pub fn updated(n: u32, x: Result<u32, Refusal>) -> Self
        ensures { result ≡ updated n x }
    {
        match x {
            Ok(count) => Self::accepted(count),
            Err(r) => Self::keeping(u32::from(r.fault), r.place, n),
        }
    }
}

impl From<Refusal> for Answer {
    ghost from_gives = { λ r answer. answer ≡ refused (number_of r.fault) r.place };

    fn from(r: Refusal) -> Answer {
        Answer::refused(u32::from(r.fault), r.place)
    }
}

// A check, which has no other result.
impl From<Result<(), Refusal>> for Answer {
    ghost from_gives = { λ x answer. answer ≡ checked x };

    fn from(x: Result<(), Refusal>) -> Answer {
        match x {
            Ok(()) => Answer::accepted(0),
            Err(r) => Answer::from(r),
        }
    }
}

// A call with one other result.
impl From<Result<u32, Refusal>> for Answer {
    ghost from_gives = { λ x answer. answer ≡ answered x };

    fn from(x: Result<u32, Refusal>) -> Answer {
        match x {
            Ok(count) => Answer::accepted(count),
            Err(r) => Answer::from(r),
        }
    }
}

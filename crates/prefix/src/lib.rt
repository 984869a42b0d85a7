// Prefixes of 32-bit addresses, by value: the whole space, ends, halves, order, and the one match test.
// Every method answers for every value and length; RULES, "Readings", says what where there is no such prefix.
#![tactic(auto)]

ghost use Rattle.std.specs.Prelude.{◌≡◌, ◌-◌, ◌^◌, ◌<◌, ◌≤◌};
ghost use Rattle.bits.specs.Bits.{bit_before};
ghost use Rattle.bits.specs.Prefix.{span, clear, matches, first, last, precedes, same_prefix, ahead_of};
ghost use Rattle.prefix.specs.Prefixes.{Spanned, prefix, left_half, right_half};

// Ordered by value and then by length, as routes stand in a list.
#[derive(Clone, Copy, Debug, PartialEq, Eq, PartialOrd, Ord)]
pub struct Prefix {
    pub value: u32,
    pub len: u32,
}

// The bits past the length; none past 32.
fn gap(len: u32) -> u32
    ensures { (result ≡ 32 - len) × (result ≤ 32) }
{
    32u32.saturating_sub(len)
}

// The bit of an address that has k bits after it; none past 32 bits.
pub fn bit_before(address: u32, k: u32) -> bool
    ensures { result ≡ bit_before address k }
{
    if k < 32 {
        (address >> k) % 2 == 1
    } else {
        false
    }
}

// How many addresses share the first `len` bits.
fn span_of(len: u32) -> u64
    ensures { Spanned 32 len result }
{
    1u64 << gap(len)
}

// How many addresses follow the first. By itself, so that the compiler sees the mask of `first` in it and makes that once.
fn after_first(len: u32) -> u64
    ensures { (result ≡ span 32 len - 1) × (result < 2 ^ 32) }
{
    span_of(len) - 1
}

impl Prefix {
    // The prefix of length 0 is the whole address space.
    pub const WHOLE: Prefix = Prefix { value: 0, len: 0 };

    // The value and the length as they are: the checks of a list or an update refuse what is no prefix.
    pub fn new(value: u32, len: u32) -> Self
        ensures { result ≡ prefix value len }
    {
        Self { value, len }
    }

    // Whether the bits of the value from the length on are zero.
    pub fn is_clear(self) -> bool
        ensures { result ≡ clear 32 self.value self.len }
    {
        self.first() == self.value
    }

    // THE MATCH TEST: whether the address lies between the first and the last address of the prefix.
    pub fn matches(self, address: u32) -> bool
        ensures { result ≡ matches 32 self.value self.len address }
    {
        (self.first() <= address) & (address <= self.last())
    }

    // The first address.
    pub fn first(self) -> u32
        ensures { result ≡ first 32 self.value self.len }
    {
        let value = self.value as u64;
        (value - value % span_of(self.len)) as u32
    }

    // The last address.
    pub fn last(self) -> u32
        ensures { result ≡ last 32 self.value self.len }
    {
        (self.first() as u64 + after_first(self.len)) as u32
    }

    // The left half; of a single address, which has none, that address.
    pub fn left(self) -> Self
        ensures { result ≡ left_half 32 self }
    {
        if self.len < 32 {
            Self {
                value: self.first(),
                len: self.len + 1,
            }
        } else {
            self
        }
    }

    // The right half; of a single address, which has none, that address.
    pub fn right(self) -> Self
        ensures { result ≡ right_half 32 self }
    {
        if self.len < 32 {
            let len = self.len + 1;
            Self {
                value: (self.first() as u64 + span_of(len)) as u32,
                len,
            }
        } else {
            self
        }
    }

    // Whether this prefix stands before another in a list: by value, then by length.
    pub fn precedes(self, next: Prefix) -> bool
        ensures { result ≡ precedes self.value self.len next.value next.len }
    {
        self < next
    }

    // Whether another prefix is this one.
    pub fn is_same(self, other: Prefix) -> bool
        ensures { result ≡ same_prefix self.value self.len other.value other.len }
    {
        self == other
    }

    // Whether this prefix goes before another in the trie: it is longer, or as long and of smaller value.
    pub fn is_ahead(self, other: Prefix) -> bool
        ensures { result ≡ ahead_of self.value self.len other.value other.len }
    {
        (other.len < self.len) | ((other.len == self.len) & (self.value < other.value))
    }
}

// Text written into lent bytes, from a place on: bytes, numbers and addresses. Each answers the place after its text.
ghost use Rattle.std.specs.Prelude.{◌≡◌, [], ◌∷◌, ◌+◌, ◌≤◌, ◌<◌, length};
ghost use Rattle.page.specs.Text.{numeral, dotted};
ghost use Rattle.page.specs.Needs.{Wrote};

pub(crate) fn put_byte(out: &mut [u8], at: usize, byte: u8) -> usize
    requires { at < length out.old }
    ensures { Wrote out.old at (byte ∷ []) result out.new }
{
    out[at] = byte;
    at + 1
}

pub(crate) fn put_bytes(out: &mut [u8], at: usize, bytes: &[u8]) -> usize
    requires { at + length bytes.now ≤ length out.old }
    ensures { Wrote out.old at bytes.now result out.new }
{
    let mut next = at;
    for byte in bytes {
        next = put_byte(out, next, *byte);
    }
    next
}

fn digit(d: u32) -> u8
    requires { d < 10 }
    ensures { result ≡ 48 + d }
{
    (48 + d) as u8
}

// A number in decimal: the digits before the last, and the last.
pub(crate) fn put_number(out: &mut [u8], at: usize, x: u32) -> usize
    requires { at + length (numeral x) ≤ length out.old }
    ensures { Wrote out.old at (numeral x) result out.new }
{
    if x < 10 {
        return put_byte(out, at, digit(x));
    }
    let last = put_number(out, at, x / 10);
    put_byte(out, last, digit(x % 10))
}

// The last byte of an address and k before it, with dots between them.
pub(crate) fn put_dotted(out: &mut [u8], at: usize, a: u32, k: u32) -> usize
    requires { at + length (dotted k a) ≤ length out.old }
    ensures { Wrote out.old at (dotted k a) result out.new }
{
    if k == 0 {
        return put_number(out, at, a);
    }
    let point = put_dotted(out, at, a / 256, k - 1);
    let last = put_byte(out, point, b'.');
    put_number(out, last, a % 256)
}

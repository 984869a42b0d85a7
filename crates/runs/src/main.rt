// Reads a route file from standard input, and prints its runs. The work is in `page`; this moves bytes.
#![tactic(auto)]

ghost use Rattle.std.specs.Prelude.{◌≤◌, length, IfOk};

use page::{MOST_BYTES, PAGE_ROOM, page};
use std::io;
use std::io::Read;

// Reads until the bytes lent are full or the input ends, and says how many it has put at their start.
fn read_full(from: &mut impl Read, bytes: &mut [u8]) -> io::Result<usize>
    ensures { IfOk result (λ n. n ≤ length bytes.new) }
{
    let mut done: usize = 0;
    while done < bytes.len() {
        let n = from.read(&mut bytes[done..])?;
        if n == 0 {
            break;
        }
        done += n;
    }
    Ok(done)
}

fn main(rt: HostRuntime) -> io::Result<()> {
    // One byte more than a file may have, so that a longer one is seen to be longer.
    let mut file = [0u8; MOST_BYTES + 1];
    let n = read_full(&mut rt.stdin(), &mut file)?;
    let mut out = [0u8; PAGE_ROOM];
    let size = page(&file[..n], &mut out);
    rt.write_all(&out[..size])
}

// The ports of neighbouring blocks of addresses, by the runs of a list: each run fills all entries whose blocks begin in it.
#![tactic(auto)]

ghost use Rattle.std.specs.Prelude.{◌≡◌, ◌*◌, ◌^◌, ◌≤◌, ◌<◌, length};
ghost use Rattle.promise.specs.Over.{outcome};
ghost use Rattle.segment_ports.specs.RunSearch.{run_end, run_port, run_of, past_of};
ghost use Rattle.segment_ports.specs.Ports.{lie_within, ports_from, ports_into};
ghost use Rattle.segment_ports.specs.Needs.{Blocks};

use entries::fill;
use runs_write::RUN_SIZE;

// How many addresses there are.
const ADDRESSES: u64 = 1 << 32;

// The last address of a run.
fn run_end(runs: &[u32], run: usize) -> u32
    ensures { result ≡ run_end runs.now run }
{
    if run < runs.len() / RUN_SIZE {
        runs[run * RUN_SIZE + 1]
    } else {
        u32::MAX
    }
}

// The port of a run, as an entry.
fn run_port(runs: &[u32], run: usize) -> u16
    ensures { result ≡ run_port runs.now run }
{
    if run < runs.len() / RUN_SIZE {
        (runs[run * RUN_SIZE + 2] % 65536) as u16
    } else {
        0
    }
}

// The first run, from one on, that does not end before the address.
fn run_of(runs: &[u32], from: usize, address: u32) -> usize
    ensures { result ≡ run_of runs.now from address }
{
    let count = runs.len() / RUN_SIZE;
    for run in from..count {
        if address <= run_end(runs, run) {
            return run;
        }
    }
    from.max(count)
}

// The first address of a block of 2^shift addresses.
fn first_of(block: usize, shift: u32) -> u32
    requires { (shift ≤ 32) × (block * 2 ^ shift < 2 ^ 32) }
    ensures { result ≡ block * 2 ^ shift }
{
    ((block as u64) << shift) as u32
}

// Up to which entry a run fills them: past the last block that begins in it, and no further than there are entries.
fn past_of(runs: &[u32], run: usize, block: usize, shift: u32, size: usize) -> usize
    requires { Blocks block size shift × (block * 2 ^ shift ≤ run_end runs.now run) }
    ensures { result ≡ past_of runs.now run block shift size }
{
    let last = ((run_end(runs, run) as u64) >> shift) as usize;
    if block + size <= last {
        return size;
    }
    last + 1 - block
}

// Whether so many blocks of 2^shift addresses, from number `block` on, lie within the addresses.
fn lie_within(block: usize, size: usize, shift: u32) -> bool
    ensures { result ≡ lie_within block size shift }
{
    if 32 < shift {
        return false;
    }
    let most = (ADDRESSES >> shift) as usize;
    if most < block {
        return false;
    }
    size <= most - block
}

// The same as `fill_ports`, for blocks that lie within the addresses.
fn fill_runs(entries: &mut [u16], runs: &[u32], from: usize, block: usize, shift: u32) -> usize
    requires { Blocks block (length entries.old) shift }
    ensures { outcome result entries.new ≡ ports_from runs.now from block shift (length entries.old) }
{
    let size = entries.len();
    let mut run = from;
    let mut k = 0;
    while k < size {
        run = run_of(runs, run, first_of(block + k, shift));
        let past = past_of(runs, run, block, shift, size);
        fill(entries, k, past, run_port(runs, run));
        k = past;
    }
    run
}

// The entries of neighbouring blocks of 2^shift addresses, from number `block` on: each is the port of the first address of its block. The
// run of the first is sought from `from` on; gives the run from which that of a later block may be sought. Where the blocks do not all lie
// within the addresses, the entries stay as they are.
pub fn fill_ports(entries: &mut [u16], runs: &[u32], from: usize, block: usize, shift: u32) -> usize
    ensures { outcome result entries.new ≡ ports_into runs.now from block shift entries.old }
{
    if lie_within(block, entries.len(), shift) {
        return fill_runs(entries, runs, from, block, shift);
    }
    from
}

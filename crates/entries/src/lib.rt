// Stores of 16-bit entries, ports or what names a block: one entry stored at a stretch of places.
#![tactic(auto)]

ghost use Rattle.std.specs.Prelude.{◌≡◌};
ghost use Rattle.entries.specs.Entries.{filled};

// Stores an entry at the places from one on, up to another; nowhere if the store ends before that.
pub fn fill(store: &mut [u16], from: usize, past: usize, entry: u16)
    ensures { store.new ≡ filled store.old from past entry }
{
    if store.len() < past {
        return;
    }
    for i in from..past {
        store[i] = entry;
    }
}

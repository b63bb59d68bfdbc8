// The test whether a bench is sound for the memory and the store that the caller lends.
// Above: entry, whose guard is how every entry begins. Below: sound (what a bench holds), sound_regions, session (registers in their ranges) and
// checks (1 to 8).
#![tactic(auto)]

ghost use Rattle.std.specs.Prelude.{◌≡◌};
ghost use Rattle.sound.specs.Sound.{sound_b};

use bounds::both;
use sound::{Bench, limits_ok};
use sound_regions::{all_apart, all_placed};

mod sessions;
mod slots;

// Whether the bench is sound for this memory and store.
pub fn is_sound(b: Bench, memory: &[u16], store: &[u8]) -> bool
    ensures { result ≡ sound_b b memory.now store.now }
{
    let kept = sessions::all_ok(store, &b.slots, &b.sessions);
    let apart = both(all_apart(&b.sessions), kept);
    let placed = both(all_placed(b.n, b.s, &b.sessions), apart);
    let loaded = both(slots::all_ok(store, &b.slots), placed);
    both(limits_ok(b.n, b.s), both(memory.len() == b.n, loaded))
}

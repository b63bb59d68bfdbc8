// Soundness of the slots: a loaded slot's range lies in the store and passes checks 1 to 8.
// Above: the test in lib. Below: checks.
ghost use Rattle.std.specs.Prelude.{◌≡◌};
ghost use Rattle.sound.specs.Sound.{all, slot_ok};

use bounds::{both, code_of, ends_by};
use sound::Slot;

fn slot_ok(store: &[u8], sl: &Slot) -> bool
    ensures { result ≡ slot_ok store.now sl.now }
{
    if !sl.loaded {
        return true;
    }
    let inside = ends_by(sl.start, sl.len, store.len());
    both(inside, checks::accepts(code_of(store, sl.start, sl.len)))
}

pub fn all_ok(store: &[u8], slots: &[Slot]) -> bool
    ensures { result ≡ all (slot_ok store.now) slots.now }
{
    slots.iter().all(|sl| slot_ok(store, sl))
}

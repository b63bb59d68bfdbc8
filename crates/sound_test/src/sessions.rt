// Soundness of the sessions: an open session names a loaded slot, and its length, registers and kind are in their ranges.
// Above: the test in lib. Below: session.
ghost use Rattle.std.specs.Prelude.{◌≡◌, [], ◌∷◌, leb};
ghost use Rattle.basis.specs.Bools.{every};
ghost use Rattle.sound.specs.Below.{cpu_ok};
ghost use Rattle.sound.specs.Bench.{code_of};
ghost use Rattle.sound.specs.Sound.{all, session_ok};

use bounds::{at_most, both, code_of};
use session::cpu_ok;
use sound::{Session, Slot};

// Of an open session that runs slot sl: it is loaded, and length, registers and kind are in their ranges.
fn session_fits(store: &[u8], sl: &Slot, se: &Session) -> bool
    ensures { result ≡ every (sl.now.loaded ∷ leb 16 se.now.len ∷ leb se.now.len 32768 ∷ cpu_ok (code_of store.now sl.now) se.now.len se.now.cpu ∷ []) }
{
    let code = code_of(store, sl.start, sl.len);
    let ranges = both(at_most(se.len, 32768), cpu_ok(code, se.len, se.cpu));
    both(sl.loaded, both(at_most(16, se.len), ranges))
}

fn session_ok(store: &[u8], slots: &[Slot; 16], se: &Session) -> bool
    ensures { result ≡ session_ok store.now slots.now se.now }
{
    if !se.used {
        return true;
    }
    let Some(sl) = slots.get(se.slot) else {
        return false;
    };
    session_fits(store, sl, se)
}

pub fn all_ok(store: &[u8], slots: &[Slot; 16], sessions: &[Session]) -> bool
    ensures { result ≡ all (session_ok store.now slots.now) sessions.now }
{
    sessions.iter().all(|se| session_ok(store, slots, se))
}

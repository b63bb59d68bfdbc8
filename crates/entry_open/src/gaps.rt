// Where a session can be opened: the lowest record that is not used, and the lowest gap that fits.
// Above: opening. Below: sound for the types.
ghost use Rattle.std.specs.Prelude.{◌≡◌, true, ◌≤◌};
ghost use Rattle.sound.specs.Sound.{all, placed};
ghost use Rattle.entry.specs.Entries.{unused, first_of, clear_of, hits, gap_of};

use bounds::{either, ends_by};
use sound::Session;

// The lowest record that is not used.
pub fn first_unused(sessions: [Session; 16]) -> Option<usize>
    ensures { result ≡ first_of unused sessions }
{
    sessions.iter().position(|se| !se.used)
}

fn is_clear(a: usize, len: usize, se: Session) -> bool
    ensures { result ≡ clear_of a len se }
{
    if !se.used {
        return true;
    }
    either(ends_by(a, len, se.base), ends_by(se.base, se.len, a))
}

// The first session with a word among the len from a on.
fn first_hit(sessions: [Session; 16], a: usize, len: usize) -> Option<usize>
    ensures { result ≡ first_of (hits a len) sessions }
{
    sessions.iter().position(|se| !is_clear(a, len, *se))
}

// The lowest gap of len words: from the end of each region in the way to the next, so at most seventeen places are tried.
pub fn gap_for(sessions: [Session; 16], s: usize, n: usize, len: usize) -> Option<usize>
    requires { (n ≤ 1048576) × (all (placed n s) sessions ≡ true) }
    ensures { result ≡ gap_of sessions s n len }
{
    let mut a = s;
    while a <= n {
        if n - a < len {
            return None;
        }
        let Some(h) = first_hit(sessions, a, len) else {
            return Some(a);
        };
        let se = sessions[h];
        a = se.base + se.len;
    }
    None
}

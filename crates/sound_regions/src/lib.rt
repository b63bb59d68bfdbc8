// Soundness of the regions: each lies above the shared words and inside memory, its session's window inside the shared words, and no two overlap.
// Above: `sound_test`, the whole test. Below: `sound`, for the records, and the small tests of `bounds`.
#![tactic(auto)]

ghost use Rattle.std.specs.Prelude.{◌≡◌, drop};
ghost use Rattle.sound.specs.Sound.{all, placed, apart, all_apart};

use bounds::{at_most, both, either, ends_by};
use sound::Session;

fn is_placed(n: usize, s: usize, se: &Session) -> bool
    ensures { result ≡ placed n s se.now }
{
    if !se.used {
        return true;
    }
    let window = ends_by(se.window.first, se.window.len, s);
    let region = both(ends_by(se.base, se.len, n), window);
    both(at_most(s, se.base), region)
}

pub fn all_placed(n: usize, s: usize, sessions: &[Session]) -> bool
    ensures { result ≡ all (placed n s) sessions.now }
{
    sessions.iter().all(|se| is_placed(n, s, se))
}

fn are_apart(a: &Session, b: &Session) -> bool
    ensures { result ≡ apart a.now b.now }
{
    if !a.used {
        return true;
    }
    if !b.used {
        return true;
    }
    either(
        ends_by(a.base, a.len, b.base),
        ends_by(b.base, b.len, a.base),
    )
}

// The sessions from one on, as far as there are.
fn later(sessions: &[Session], from: usize) -> &[Session]
    ensures { result.now ≡ drop from sessions.now }
{
    &sessions[from.min(sessions.len())..]
}

// A session against those from one on. A record that is not used is apart from all: none of them is looked at.
fn is_apart(se: &Session, sessions: &[Session], from: usize) -> bool
    ensures { result ≡ all (apart se.now) (drop from sessions.now) }
{
    !se.used
        || later(sessions, from)
            .iter()
            .all(|other| are_apart(se, other))
}

// Each session against all that follow it.
pub fn all_apart(sessions: &[Session]) -> bool
    ensures { result ≡ all_apart sessions.now }
{
    let mut left = sessions;
    while let [se, others @ ..] = left {
        if !is_apart(se, left, 1) {
            return false;
        }
        left = others;
    }
    true
}

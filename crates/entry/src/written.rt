// The writing of one session: its record, and its words.
// Above: opening, a turn and closing. Below: sound for the types.
ghost use Rattle.std.specs.Prelude.{◌≡◌, ◌+◌, ◌≤◌, length, replicate, set};
ghost use Rattle.sound.specs.Bench.{world_of, at_sessions};
ghost use Rattle.entry.specs.Entries.{cleared};

use sound::{Bench, Session};

pub fn clear_words(r: &mut [u16])
    ensures { r.new ≡ replicate (length r.old) 0 }
{
    r.fill(0);
}

// The bench with session record i replaced.
pub fn with_session(b: Bench, i: usize, se: Session) -> Bench
    requires { i ≤ 15 }
    ensures { result ≡ at_sessions b (set b.sessions i se) }
{
    let mut out = b;
    out.sessions[i] = se;
    out
}

// Session record i replaced, and the len words from base on zero.
pub fn clear(b: Bench, memory: &mut [u16], i: usize, se: Session, base: usize, len: usize) -> Bench
    requires { (i ≤ 15) × (base + len ≤ length memory.old) }
    ensures { world_of result memory.new ≡ cleared i se base len (world_of b memory.old) }
{
    let end = base + len;
    clear_words(&mut memory[base..end]);
    with_session(b, i, se)
}

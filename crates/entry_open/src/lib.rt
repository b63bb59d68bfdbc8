// Opening a session: the lowest unused record, the lowest gap that fits, every word of it zero, and a window of the shared words.
// Above: `bench`, by which programs call it. Below: gaps, entry (the guard, and words set to zero), session for the start, sound.
#![tactic(auto)]

ghost use Rattle.std.specs.Prelude.{◌≡◌};
ghost use Rattle.sound.specs.Bench.{world_of};
ghost use Rattle.entry.specs.Answer.{result_of};
ghost use Rattle.entry.specs.Entries.{len_ok, window_open_of, open_of};

use bounds::{at_most, both, code_of, ends_by};
use entry::{Out, clear, guard, refuse};
use segment::Refusal;
use session::start_cpu;
use sound::{Bench, Session, Window, slot_at};

mod gaps;

pub use gaps::{first_unused, gap_for};

// L in 16..32,768, and at least 6+G.
fn len_ok(code: &[u8], len: usize) -> bool
    ensures { result ≡ len_ok code.now len }
{
    let low = segment::floor(code) as usize;
    both(
        at_most(16, len),
        both(at_most(len, 32768), at_most(low, len)),
    )
}

// A session of len words on a slot, which sees the window. Refusals 11, 12, 13, 14, 15.
pub fn open_window(
    b: Bench,
    memory: &mut [u16],
    store: &[u8],
    slot: usize,
    len: usize,
    window: Window,
) -> Out
    ensures { result_of result memory.new ≡ window_open_of store.now slot len window (world_of b memory.old) }
{
    let sl = slot_at(b, slot);
    if let Err(refusal) = guard(b, memory, store, sl.loaded) {
        return refuse(b, refusal);
    }
    let code = code_of(store, sl.start, sl.len);
    let inside = ends_by(window.first, window.len, b.s);
    if !both(len_ok(code, len), inside) {
        return refuse(b, Refusal::RegionLength);
    }
    let Some(i) = first_unused(b.sessions) else {
        return refuse(b, Refusal::NoRecord);
    };
    let Some(a) = gap_for(b.sessions, b.s, b.n, len) else {
        return refuse(b, Refusal::NoGap);
    };
    let se = Session::fresh(slot, a, len, window, start_cpu(code, len));
    Out {
        answer: Ok(i as u32),
        bench: clear(b, memory, i, se, a, len),
    }
}

// The older opening: a session that sees all S words.
pub fn open_session(b: Bench, memory: &mut [u16], store: &[u8], slot: usize, len: usize) -> Out
    ensures { result_of result memory.new ≡ open_of store.now slot len (world_of b memory.old) }
{
    let all = Window { first: 0, len: b.s };
    open_window(b, memory, store, slot, len, all)
}

// A turn of one session: up to k steps of the machine on its region.
// Above: `bench`, by which programs call it. Below: entry (the guard, and the record's writing), session for the run, sound.
#![tactic(auto)]

ghost use Rattle.std.specs.Prelude.{◌≡◌};
ghost use Rattle.sound.specs.Bench.{world_of};
ghost use Rattle.entry.specs.Answer.{result_of};
ghost use Rattle.entry.specs.Entries.{turn_of};

use bounds::code_of;
use entry::{Out, guard, refuse, with_session};
use segment::Refusal;
use session::run;
use sound::{Bench, session_at, slot_at};

// k steps of session i. Refusals 11, 12, 16.
pub fn turn(b: Bench, memory: &mut [u16], store: &[u8], i: usize, k: u64) -> Out
    ensures { result_of result memory.new ≡ turn_of store.now i k (world_of b memory.old) }
{
    let se = session_at(b, i);
    if let Err(refusal) = guard(b, memory, store, se.used) {
        return refuse(b, refusal);
    }
    if 65535 < k {
        return refuse(b, Refusal::TooManySteps);
    }
    let sl = slot_at(b, se.slot);
    let code = code_of(store, sl.start, sl.len);
    let end = se.base + se.len;
    let steps = k as usize;
    let first = se.window.first;
    let seen = se.window.len;
    let ran = run(code, memory, first, seen, se.base, end, se.cpu, steps);
    Out {
        answer: Ok(ran.done as u32),
        bench: with_session(b, i, se.at(ran.cpu)),
    }
}

// Closing a session: its region is zeroed, and region and record are free.
// Above: `bench`, by which programs call it. Below: entry (the guard, and words set to zero), sound.
#![tactic(auto)]

ghost use Rattle.std.specs.Prelude.{◌≡◌};
ghost use Rattle.sound.specs.Bench.{world_of};
ghost use Rattle.entry.specs.Answer.{result_of};
ghost use Rattle.entry.specs.Entries.{close_of};

use entry::{Out, clear, guard, refuse};
use segment::Refusal;
use sound::{Bench, no_session, session_at};

// Session i. Refusals 11, 12.
pub fn close(b: Bench, memory: &mut [u16], store: &[u8], i: usize) -> Out
    ensures { result_of result memory.new ≡ close_of store.now i (world_of b memory.old) }
{
    let se = session_at(b, i);
    if let Err(refusal) = guard(b, memory, store, se.used) {
        return refuse(b, refusal);
    }
    let out = clear(b, memory, i, no_session(), se.base, se.len);
    Out {
        answer: Ok(0),
        bench: out,
    }
}

// A new bench: no slot loaded, no record used, and no word touched.
// Above: `bench`, by which programs call it. Below: entry for the answer, sound.
#![tactic(auto)]

ghost use Rattle.std.specs.Prelude.{◌≡◌};
ghost use Rattle.entry.specs.Entries.{empty_bench, new_of, new_by};

use entry::Out;
use segment::Refusal;
use sound::{Bench, limits_ok, no_session, no_slot};

fn empty(n: usize, s: usize) -> Bench
    ensures { result ≡ empty_bench n s }
{
    Bench {
        n,
        s,
        slots: [no_slot(); 16],
        sessions: [no_session(); 16],
    }
}

// For a memory of n words of which the first s are shared. Refusal 17; the bench beside it is then an empty one for no memory.
pub fn new_bench(n: usize, s: usize) -> Out
    ensures { new_by result ≡ new_of n s }
{
    if limits_ok(n, s) {
        return Out {
            answer: Ok(0),
            bench: empty(n, s),
        };
    }
    Out {
        answer: Err(Refusal::Limits),
        bench: empty(0, 0),
    }
}

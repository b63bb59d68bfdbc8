// What the entries of a bench share: what they answer, the guard with which each begins, and the writing of one session.
// Above: a crate for each entry, and `bench`, which passes them on. Below: sound (what a bench holds and its test).
#![tactic(auto)]

ghost use Rattle.std.specs.Prelude.{◌≡◌, List, ℕ};
ghost use Rattle.segment.specs.Refusals.{number_of, place_of};
ghost use Rattle.sound.specs.Bench.{world_of};
ghost use Rattle.entry.specs.Answer.{result_of, refused_at};

use segment::Refusal;
use sound::Bench;

mod begun;
mod written;

pub use begun::{guard, is_free};
pub use written::{clear, clear_words, with_session};

// Kept: the bench, the memory and the store are three parameters of every entry, and no struct, since the contracts of the entries, which README and
// docs name, say what each is lent for: a turn writes the memory, a loading reads it, none writes the store.

// What an entry answers, the steps done, the session's number, or 0, or why it refuses; and the bench as it leaves it.
#[derive(Clone, Copy)]
pub struct Out {
    pub answer: Result<u32, Refusal>,
    pub bench: Bench,
}

// A refusal: the bench is as it was, with any memory.
pub fn refuse(b: Bench, refusal: Refusal) -> Out
    ensures { (m : List ℕ) → result_of result m ≡ refused_at (number_of refusal) (place_of refusal) (world_of b m) }
{
    Out {
        answer: Err(refusal),
        bench: b,
    }
}

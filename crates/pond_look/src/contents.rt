// `words SESSION [FROM [COUNT]]` and `shared [FROM [COUNT]]`: a column for each form of a word, one line a word, and one line for three or more zeros in a row.
// Above it: the console, and run. Below it: the bench's numbers.
ghost use Rattle.std.specs.Prelude.{◌≤◌, length};

use crate::{refusals, told};
use pond_phrases::say;
use pond_rows::Bytes;
use pond_say::{Console, Outcome};
use segment::Refusal;
use sound::Bench;
use std::fmt::Write;

// The words that are asked for: all, those from one on, or so many from one on.
#[derive(Clone, Copy)]
pub enum Wanted {
    All,
    From(u64),
    Part(u64, u64),
}

// The session's words by its own addresses, which begin at 1: 0 is NIL.
pub fn words(b: Bench, memory: &[u16], book: &[Bytes], session: u64, wanted: Wanted) -> Outcome {
    let i = session as usize;
    let se = told::record(b, i);
    if !se.used {
        return refusals::of_session(Refusal::NotThere, session);
    }
    let own = told::region(memory, se.base, se.len);
    if shown(own, 1, wanted) {
        return Outcome::Done;
    }
    cannot(wanted);
    told::session(book, i);
    told::span(b" has words # to #\n", 1, own.len().saturating_sub(1));
    Outcome::Typing
}

pub fn shared(b: Bench, memory: &[u16], wanted: Wanted) -> Outcome {
    let all = told::region(memory, 0, b.s);
    if shown(all, 0, wanted) {
        return Outcome::Done;
    }
    // all of no shared words can be shown: there are none
    let outcome = match wanted {
        Wanted::All => Outcome::Done,
        _ => {
            cannot(wanted);
            Outcome::Typing
        }
    };
    if all.is_empty() {
        pond_say::text(b"no words are shared\n");
    } else {
        told::span(b"words # to # are shared\n", 0, all.len());
    }
    outcome
}

// `cannot show 5 words from word 98 on: `
fn cannot(wanted: Wanted) {
    match wanted {
        Wanted::All => pond_say::text(b"cannot show words: "),
        Wanted::From(from) => say(b"cannot show words from word # on: ", &[from]),
        Wanted::Part(from, count) => {
            say(
                b"cannot show # word% from word # on: ",
                &[count, count, from],
            )
        }
    }
}

// Shows the words that are wanted, the first of which is word low; answers whether they are there.
fn shown(all: &[u16], low: usize, wanted: Wanted) -> bool {
    let Some((from, part)) = stretch(all, low, wanted) else {
        return false;
    };
    pond_say::text(b"       word  unsigned  signed   hex\n");
    lines(part, from);
    true
}

// The number of the first wanted word, and the words, if there are any and all are among the words from low on.
fn stretch(all: &[u16], low: usize, wanted: Wanted) -> Option<(usize, &[u16])> {
    let (from, count) = match wanted {
        Wanted::All => (low, all.len().saturating_sub(low)),
        Wanted::From(from) => (from as usize, all.len().saturating_sub(from as usize)),
        Wanted::Part(from, count) => (from as usize, count as usize),
    };
    if from < low || count == 0 {
        return None;
    }
    let part = all.get(from..)?.get(..count)?;
    Some((from, part))
}

// A line for each word of a part, or for a run of zeros; the part's first word is word first.
fn lines(part: &[u16], first: usize) {
    let mut rest = part;
    let mut name = first;
    while let Some((w, behind)) = rest.split_first() {
        let zeros = zeros(rest);
        if 2 < zeros {
            run(name, zeros);
            name = told::past(name, zeros);
            rest = &rest[zeros..];
        } else {
            one(name, *w);
            name = told::past(name, 1);
            rest = behind;
        }
    }
}

// With how many zeros a part begins.
fn zeros(part: &[u16]) -> usize
    ensures { result ≤ length part.now }
{
    part.iter().position(|w| *w != 0).unwrap_or(part.len())
}

// `6-93` and the forms of 0.
fn run(from: usize, count: usize) {
    pond_say::range_padded(from as u64, told::last(from, count) as u64, 11);
    forms(0);
}

// `94`, and 65529 as `65529      -7  FFF9`.
fn one(name: usize, w: u16) {
    pond_say::padded(name as u64, 11);
    forms(w);
}

fn forms(w: u16) {
    let mut out = Console;
    let _ = writeln!(out, "{w:>10}{:>8}  {w:04X}", w.cast_signed());
}

// The lines of standard input until it ends, each followed on the console's bench.
// Above it: the program. Below it: a line heard, and the commands.
use pond_lines::heard::{Heard, Said};
use pond_lines::{heard, stops};
use pond_look::Next;
use pond_rows::Bytes;
use pond_say::Outcome;
use pond_words::{Command, Keep, forms};
use sound::Bench;
use std::io::IsTerminal;

// The bench after a line, what a script goes on after from there on, how the line went for it, and whether another line may follow.
#[derive(Clone, Copy)]
struct After {
    bench: Bench,
    keep: Keep,
    outcome: Outcome,
    more: bool,
}

// The memory that every bench is lent, as much of it as it has words.
fn words() -> [u16; 1048576] {
    [0u16; 1048576]
}

// The store: 65,536 bytes for each of 16 slots.
fn bytes() -> [u8; 1048576] {
    [0u8; 1048576]
}

// The console begins with 65,536 words, none of them shared.
fn first_bench() -> Bench {
    bench::new_bench(65536, 0).bench
}

// The lines of standard input, on one bench after another. A person's failures are no failures of the console.
pub fn script(rt: &HostRuntime) {
    let mut memory = words();
    let mut store = bytes();
    let mut book = pond_rows::book();
    let typed = rt.stdin().is_terminal();
    if typed {
        pond_typed::welcome();
    }
    let gravest = lines(rt, first_bench(), &mut memory, &mut store, &mut book, typed);
    if typed {
        pond_say::end();
    }
    pond_say::leave(gravest);
}

// A proved loop has to end, and nothing says that the input does. So the loop counts its lines, up to a number that no run reaches. It answers
// the gravest failure.
fn lines(
    rt: &HostRuntime,
    b: Bench,
    memory: &mut [u16],
    store: &mut [u8],
    book: &mut [Bytes],
    typed: bool,
) -> Outcome {
    let mut bench = b;
    let mut keep = Keep::Nothing;
    let mut gravest = Outcome::Done;
    for line in 1..=u64::MAX {
        let after = one_line(rt, bench, memory, store, book, typed, keep, line);
        bench = after.bench;
        keep = after.keep;
        gravest = gravest.max(after.outcome);
        if !after.more {
            break;
        }
    }
    gravest
}

// Reads a line, which has this number, follows it, and answers whether another may come.
fn one_line(
    rt: &HostRuntime,
    b: Bench,
    memory: &mut [u16],
    store: &mut [u8],
    book: &mut [Bytes],
    typed: bool,
    keep: Keep,
    line: u64,
) -> After {
    let mut tape = pond_rows::tape();
    let Heard { said, keep, more } = heard::line(rt, typed, &mut tape, keep);
    let Next { bench, outcome } = obeyed(rt, b, memory, store, book, &tape, said);
    let s = stops::settled(rt, outcome, typed, keep, line, more);
    After {
        bench,
        keep,
        outcome: s.outcome,
        more: s.more,
    }
}

fn obeyed(
    rt: &HostRuntime,
    b: Bench,
    memory: &mut [u16],
    store: &mut [u8],
    book: &mut [Bytes],
    tape: &[Bytes],
    said: Said,
) -> Next {
    let outcome = match said {
        Said::Command(Some(form), n) if forms::on_bench(form) => {
            return pond_deeds::follow(rt, Command { form, tape, n }, b, memory, store, book);
        }
        Said::Command(Some(form), n) => pond_alone::follow(rt, Command { form, tape, n }),
        Said::Command(None, _) => forms::unknown(pond_rows::row(tape, 0)),
        Said::Nothing => Outcome::Done,
        Said::Wrong => Outcome::Typing,
        Said::Unread => Outcome::File,
    };
    Next { bench: b, outcome }
}

// Entries of a bench asked many times under a C name, so that speed/ can time them. Nothing else calls it, and it asks nothing of its caller.
// Below: `bench`. A new entry is timed by one arm of `ask` and one row of the table in speed/entries.c.
//
// What is put into the function with the turn's loop decides the loop's shape: in this form a step takes 26.5 x86-64 instructions. Tried: an enum for
// the request's number, 28.2; a struct of bench, memory and store, 33.2; rounds counted upward, 29.0. So these stay numbers and parameters.
#![tactic(auto)]

use bench::{Bench, Out, Refusal};

// One more where the request was not refused: the caller can tell that it timed what it meant to. `export_archive` has the same for
// itself: a crate below both for these few lines would be no plainer.
fn counted(done: u64, answer: Result<u32, Refusal>) -> u64 {
    match answer {
        Ok(_) => done % 4294967296 + 1,
        Err(_) => done,
    }
}

// The bench with the whole store in each of the first `slots` slots.
fn loaded(b: Bench, memory: &[u16], store: &[u8], slots: usize) -> Bench {
    let mut now = b;
    for i in 0..slots {
        now = bench::load(now, memory, store, i, 0, store.len()).bench;
    }
    now
}

// The bench with so many more sessions of len words on slot 0.
fn opened(b: Bench, memory: &mut [u16], store: &[u8], sessions: usize, len: usize) -> Bench {
    let mut now = b;
    for _ in 0..sessions {
        now = bench::open_session(now, memory, store, 0, len).bench;
    }
    now
}

// One request: 0 opens a session of n words on slot 0, 1 closes session 0, 2 loads slot 15, any other is a turn of n steps of session 0.
fn ask(b: Bench, memory: &mut [u16], store: &[u8], what: u64, n: u64) -> Out {
    match what {
        0 => bench::open_session(b, memory, store, 0, n as usize),
        1 => bench::close(b, memory, store, 0),
        2 => bench::load(b, memory, store, 15, 0, store.len()),
        _ => bench::turn(b, memory, store, 0, n),
    }
}

// The same request of the same bench so many times; answers how many were not refused. The bench after each is dropped, so that it can be
// asked again: a turn begins at the same registers each time.
fn asked(b: Bench, memory: &mut [u16], store: &[u8], what: u64, n: u64, rounds: usize) -> u64 {
    let mut done = 0;
    for _ in (0..rounds).rev() {
        done = counted(done, ask(b, memory, store, what, n).answer);
    }
    done
}

// Asks a bench of so many loaded slots and open sessions of len words. With no round it only builds the bench, so that a caller can take the time
// of that off.
#[unsafe(no_mangle)]
pub extern "C" fn bench_asked(
    memory: &mut [u16],
    store: &[u8],
    slots: usize,
    sessions: usize,
    len: usize,
    what: u64,
    n: u64,
    rounds: usize,
) -> u64 {
    let out = bench::new_bench(memory.len(), 0);
    let b = loaded(out.bench, memory, store, slots);
    let full = opened(b, memory, store, sessions, len);
    asked(full, memory, store, what, n, rounds)
}

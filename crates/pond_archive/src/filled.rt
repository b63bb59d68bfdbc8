// `records FILE`, the shared words from a text file of records, and `bench N records FILE`, a new bench whose shared words are just those of the file.
// Above it: the console, and the demo. Below it: text files of records, the bench, and the fill.
use crate::sheets;
use pond_look::Next;
use pond_phrases::say;
use pond_rows::Bytes;
use pond_say::Outcome;
use pond_slots::fills;
use sound::Bench;

// The file must have a record for each four shared words: else the rest of the archive would be something else.
pub fn records(
    rt: &HostRuntime,
    b: Bench,
    memory: &mut [u16],
    book: &[Bytes],
    file: &[u8],
) -> Outcome {
    if pond_windows::held(b, book) {
        return Outcome::Typing;
    }
    let mut room = io::large_buffer();
    let Some(bytes) = sheets::read(rt, file, &mut room) else {
        return Outcome::File;
    };
    fitted(b, memory, file, bytes)
}

fn fitted(b: Bench, memory: &mut [u16], file: &[u8], bytes: &[u8]) -> Outcome {
    let words = bytes.len() / 2;
    if words == b.s {
        fills::from_records(memory, file, bytes);
        return Outcome::Done;
    }
    unfit(b, file, words);
    Outcome::File
}

fn unfit(b: Bench, file: &[u8], words: usize) {
    let k = (words / 4) as u64;
    pond_say::text(b"cannot fill: ");
    pond_say::path(file);
    say(
        b" has # record%, which take # words, and there @ shared; bench # # would fit\n",
        &[
            k,
            k,
            words as u64,
            b.s as u64,
            b.n.max(words) as u64,
            words as u64,
        ],
    );
}

pub fn bench_of(
    rt: &HostRuntime,
    b: Bench,
    memory: &mut [u16],
    book: &mut [Bytes],
    n: u64,
    file: &[u8],
) -> Next {
    let mut room = io::large_buffer();
    let Some(bytes) = sheets::read(rt, file, &mut room) else {
        return Next {
            bench: b,
            outcome: Outcome::File,
        };
    };
    made(b, memory, book, n, file, bytes)
}

// A new bench of n words, the first of them from the bytes of records; or the old one, where the numbers are refused.
pub fn made(
    b: Bench,
    memory: &mut [u16],
    book: &mut [Bytes],
    n: u64,
    file: &[u8],
    bytes: &[u8],
) -> Next {
    let next = pond_slots::new_bench(b, memory, book, n, (bytes.len() / 2) as u64);
    if pond_say::went(next.outcome) {
        fills::from_records(memory, file, bytes);
    }
    next
}

// `save SESSION FILE`: a session's words as text that a spreadsheet reads: a line of names, and one for each word, with commas between.
// Above it: the words of the commands. Below it: files, and what can be seen of a bench.
#![tactic(auto)]

use pond_look::{refusals, told};
use pond_rows::Bytes;
use pond_say::Outcome;
use segment::Refusal;
use sound::Bench;
use text::front;

// Room for every word of the longest session: no line has more than 24 bytes.
fn space() -> [u8; 1048576] {
    [0u8; 1048576]
}

pub fn save(
    rt: &HostRuntime,
    b: Bench,
    memory: &[u16],
    book: &[Bytes],
    session: u64,
    file: &[u8],
) -> Outcome {
    let i = session as usize;
    let se = told::record(b, i);
    if !se.used {
        return refusals::of_session(Refusal::NotThere, session);
    }
    written(rt, told::region(memory, se.base, se.len), book, i, file)
}

fn written(rt: &HostRuntime, region: &[u16], book: &[Bytes], i: usize, file: &[u8]) -> Outcome {
    let mut room = space();
    let n = lines(region, &mut room);
    if !pond_files::write(rt, file, front(&room, n)) {
        return Outcome::File;
    }
    told::session(book, i);
    told::span(
        b": words # to # written to ",
        1,
        region.len().saturating_sub(1),
    );
    pond_say::path(file);
    pond_say::end();
    Outcome::Done
}

// All lines at the start of room, which has room for them; how many bytes they have. With formats a save took 2.2 times as long.
fn lines(region: &[u16], room: &mut [u8]) -> usize {
    let mut at = put(room, 0, b"word,unsigned,signed,hex\n");
    for (i, w) in region.iter().enumerate().skip(1) {
        at = line(room, at, i as u64, *w);
    }
    at
}

// A word's name and its three forms, with commas between.
fn line(room: &mut [u8], at: usize, i: u64, w: u16) -> usize {
    let named = decimal(room, at, i);
    let unsigned = decimal(room, named, u64::from(w));
    let signed = decimal_of(room, unsigned, w.cast_signed());
    put(room, signed, &hex(w))
}

// A number of at most five digits, and a comma behind it: what `io::decimal` does not write stays.
fn decimal(room: &mut [u8], at: usize, n: u64) -> usize {
    let mut digits = [b','; 20];
    let k = io::decimal(n, &mut digits);
    put(room, at, front(&digits, k + 1))
}

// The same of a number in two's complement.
fn decimal_of(room: &mut [u8], at: usize, n: i16) -> usize {
    let begun = if n < 0 { put(room, at, b"-") } else { at };
    decimal(room, begun, u64::from(n.unsigned_abs()))
}

// Four digits, and the line's end.
fn hex(w: u16) -> [u8; 5] {
    let digit = |n: u16| b"0123456789ABCDEF"[(n % 16) as usize];
    [
        digit(w / 4096),
        digit(w / 256),
        digit(w / 16),
        digit(w),
        b'\n',
    ]
}

// The bytes into room from index at on, as far as it goes; the index after them. They are few: one by one they take less time than a copy.
fn put(room: &mut [u8], at: usize, bytes: &[u8]) -> usize {
    let mut next = at;
    for byte in bytes {
        if let Some(place) = room.get_mut(next) {
            *place = *byte;
            next += 1;
        }
    }
    next
}

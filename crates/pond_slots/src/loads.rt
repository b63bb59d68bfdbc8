// `load SLOT FILE`: a segment from a file into a slot; and `slots`, what is loaded.
// Above it: the console, and run. Below it: the bench and files.
use pond_look::{Next, refusals, told};
use pond_phrases::say;
use pond_rows::Bytes;
use pond_say::Outcome;
use sound::Bench;

// The bytes of the store that are for one slot: one more word than the longest segment has, so that a longer file is told from it.
const AREA: usize = 65536;

// The file is read only where its slot can be loaded, so that no loaded segment is overwritten. Where it cannot, the entry refuses whatever is asked.
pub fn load(
    rt: &HostRuntime,
    b: Bench,
    memory: &[u16],
    store: &mut [u8],
    book: &mut [Bytes],
    slot: u64,
    name: &[u8],
    file: &[u8],
) -> Next {
    let i = slot as usize;
    let start = area(i);
    let Some(len) = read(rt, store, file, start, free(b, i)) else {
        return Next {
            bench: b,
            outcome: Outcome::File,
        };
    };
    asked(b, memory, store, book, name, file, i, start, len)
}

// Whether there is such a slot, and it is not loaded.
fn free(b: Bench, i: usize) -> bool {
    i < 16 && !told::slot(b, i).loaded
}

// A segment under a name, into the lowest slot that is not loaded.
pub fn load_named(
    rt: &HostRuntime,
    b: Bench,
    memory: &[u16],
    store: &mut [u8],
    book: &mut [Bytes],
    name: &[u8],
    file: &[u8],
) -> Next {
    let Some(i) = b.slots.iter().position(|sl| !sl.loaded) else {
        pond_say::text(b"refused 12 at 0: all 16 slots are loaded; only a new bench frees them\n");
        return Next {
            bench: b,
            outcome: Outcome::Refused,
        };
    };
    load(rt, b, memory, store, book, i as u64, name, file)
}

// Where the bytes of a slot begin.
fn area(i: usize) -> usize {
    if 15 < i {
        return 0;
    }
    AREA * i
}

// The file into the bytes from start on, where the slot is free; how many bytes were read, where it could be.
fn read(
    rt: &HostRuntime,
    store: &mut [u8],
    file: &[u8],
    start: usize,
    free: bool,
) -> Option<usize> {
    if free {
        if let Some(part) = store.get_mut(start..told::past(start, AREA)) {
            return Some(pond_files::read(rt, file, part)?.len());
        }
    }
    Some(0)
}

pub fn asked(
    b: Bench,
    memory: &[u16],
    store: &[u8],
    book: &mut [Bytes],
    name: &[u8],
    file: &[u8],
    i: usize,
    start: usize,
    len: usize,
) -> Next {
    let out = bench::load(b, memory, store, i, start, len);
    let answer = out.answer;
    let bench = out.bench;
    let outcome = match answer {
        Ok(_) => {
            pond_rows::put(book, pond_rows::slot_row(i), name);
            pond_rows::put(book, pond_rows::file_row(i), file);
            loaded(book, i, bounds::code_of(store, start, len))
        }
        Err(refusal) => { refusals::is_loaded(refusal, i as u64) }
    };
    Next { bench, outcome }
}

// `slot 0 north: FILE, 120 bytes, 3 routines`
fn loaded(book: &[Bytes], i: usize, seg: &[u8]) -> Outcome {
    told::slot_of(book, i);
    pond_say::text(b": ");
    pond_say::path(pond_rows::file_of(book, i));
    sizes(seg);
    Outcome::Done
}

fn sizes(seg: &[u8]) {
    let n = seg.len() as u64;
    let h = segment::head(seg);
    say(
        b", # byte%, # routine%\n",
        &[n, n, h.count as u64, h.count as u64],
    );
}

// `slots`: a line for each slot that is loaded.
pub fn slots(b: Bench, store: &[u8], book: &[Bytes]) {
    if !b.slots.iter().any(|sl| sl.loaded) {
        pond_say::text(b"no slot is loaded\n");
    }
    for (i, sl) in b.slots.iter().enumerate() {
        if sl.loaded {
            loaded(book, i, bounds::code_of(store, sl.start, sl.len));
        }
    }
}

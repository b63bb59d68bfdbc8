// What a line with a small letter sets up: words, bytes, and the parts of the bench. Any numbers may be set, sound or not.
// Above it: the world. Below it: the numbers of a line, and the types of the bench.
use crate::numbers;
use crate::numbers::{NUMBERS, low_byte};
use machine::{Cpu, Kind};
use plan::Regs;
use sound::{Bench, Session, Slot, Window};

// `w AT V V ..`
pub fn words(memory: &mut [u16], text: &[u8]) {
    numbers::put_words(numbers::rest(text), memory, numbers::first(text));
}

// `b AT PAIRS`
pub fn bytes(store: &mut [u8], text: &[u8]) {
    numbers::put_bytes(numbers::rest(text), store, numbers::first(text));
}

// No slot loaded, no record used, and no words.
pub fn no_bench() -> Bench {
    Bench {
        n: 0,
        s: 0,
        slots: [sound::no_slot(); 16],
        sessions: [sound::no_session(); 16],
    }
}

// What a session's record has besides its registers and its kind.
#[derive(Clone, Copy)]
pub struct Region {
    pub used: bool,
    pub slot: usize,
    pub base: usize,
    pub len: usize,
    pub window: Window,
}

// The part of a bench that a line sets. A slot or a record past the last is no part, and is ignored.
#[derive(Clone, Copy)]
pub enum Part {
    Whole,
    Sizes { n: usize, s: usize },
    Slot(usize, Slot),
    Region(usize, Region),
    Registers(usize, Cpu),
}

// The letter is of no line that sets a part of the bench.
#[derive(Clone, Copy)]
pub struct NoPart;

// A line's letter and its numbers.
impl TryFrom<(u8, [u64; NUMBERS])> for Part {
    type Error = NoPart;

    fn try_from(line: (u8, [u64; NUMBERS])) -> Result<Self, NoPart> {
        let (letter, v) = line;
        let i = v[0] as usize;
        Ok(match letter {
            b'z' => Part::Whole,
            b'n' => Part::Sizes {
                n: i,
                s: v[1] as usize,
            },
            b's' => Part::Slot(i, slot_of(v)),
            b'e' => Part::Region(i, region_of(v)),
            b'r' => Part::Registers(i, registers_of(v)),
            _ => return Err(NoPart),
        })
    }
}

// Sets a part of the bench.
pub fn bench(b: &mut Bench, part: Part) {
    match part {
        Part::Whole => {
            *b = no_bench();
        }
        Part::Sizes { n, s } => {
            b.n = n;
            b.s = s;
        }
        Part::Slot(i, new) => {
            if let Some(sl) = b.slots.get_mut(i) {
                *sl = new;
            }
        }
        Part::Region(i, region) => {
            if let Some(se) = b.sessions.get_mut(i) {
                se.used = region.used;
                se.slot = region.slot;
                se.base = region.base;
                se.len = region.len;
                se.window = region.window;
            }
        }
        Part::Registers(i, cpu) => {
            if let Some(se) = b.sessions.get_mut(i) {
                se.cpu = cpu;
            }
        }
    }
}

// The rest of `s I LOADED START LENGTH`.
fn slot_of(v: [u64; NUMBERS]) -> Slot {
    let [_, loaded, start, len, ..] = v;
    Slot {
        loaded: loaded != 0,
        start: start as usize,
        len: len as usize,
    }
}

// The rest of `e I USED SLOT BASE LENGTH FIRST COUNT`.
fn region_of(v: [u64; NUMBERS]) -> Region {
    let [_, used, slot, base, len, first, count, ..] = v;
    Region {
        used: used != 0,
        slot: slot as usize,
        base: base as usize,
        len: len as usize,
        window: window(first, count),
    }
}

// A window of any numbers.
pub fn window(first: u64, len: u64) -> Window {
    Window {
        first: first as usize,
        len: len as usize,
    }
}

// The rest of `r I SP M COUNTER ROUTINE LOW KIND FAULT PLACE`.
fn registers_of(v: [u64; NUMBERS]) -> Cpu {
    let [_, sp, m, counter, routine, lowest, number, fault, place, ..] = v;
    Cpu {
        kind: kind(number, fault, place),
        regs: Regs {
            sp: sp as usize,
            m: m as usize,
            counter: counter as usize,
            routine: routine as usize,
            lowest: lowest as usize,
        },
    }
}

// 0 is ready, 1 finished, and any other number faulted. Only a faulted session has a fault and a place.
fn kind(number: u64, fault: u64, place: u64) -> Kind {
    match number {
        0 => Kind::Ready,
        1 => Kind::Finished,
        _ => Kind::Faulted(low_byte(fault), place as usize),
    }
}

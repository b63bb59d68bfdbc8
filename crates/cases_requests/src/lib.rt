// What a line with a capital letter asks of the proved entry points; docs/CASES.md has the format.
// Above it: `cases_entries`, which reads the lines. Below it: segments, their turning, the bench and the archive, each asked by its public entry points; and
// `cases_lines`, which tells an answer. An output longer than the longest is the longest.
#![tactic(auto)]

use bench::{Out, Refusal};
use cases_lines::numbers::{NUMBERS, low_word};
use cases_lines::setup::window;
use cases_lines::tell::tell;
use cases_lines::{answers, digest};
use machine::Cpu;
use segment::Segment;
use sound::{Bench, Window, session_at};

// The longest output of a turning, in bytes.
const OUTPUT: usize = 131072;

// What a request sees of the world: the bench, with the words of memory and the bytes of store that are lent.
#[derive(Drop)]
pub struct Seen<'a> {
    pub bench: Bench,
    pub memory: &'a mut [u16],
    pub store: &'a [u8],
}

// A question that changes nothing.
#[derive(Clone, Copy)]
pub enum Question {
    Judge,
    Turned { len: usize },
    Archive,
    Range { farm: u16 },
    Sound,
}

// An entry of the bench, or of the archive.
#[derive(Clone, Copy)]
pub enum Entry {
    New {
        n: usize,
        s: usize,
    },
    Load {
        slot: usize,
        start: usize,
        len: usize,
    },
    Open {
        slot: usize,
        len: usize,
    },
    OpenWindow {
        slot: usize,
        len: usize,
        window: Window,
    },
    OpenFarm {
        slot: usize,
        len: usize,
        farm: u16,
    },
    Turn {
        session: usize,
        steps: u64,
    },
    Close {
        session: usize,
    },
}

// The letter is of no line that asks so.
#[derive(Clone, Copy)]
pub struct NotAsked;

// A line's letter and its numbers.
impl TryFrom<(u8, [u64; NUMBERS])> for Question {
    type Error = NotAsked;

    fn try_from(line: (u8, [u64; NUMBERS])) -> Result<Self, NotAsked> {
        let (letter, v) = line;
        Ok(match letter {
            b'J' => Question::Judge,
            b'V' => Question::Turned { len: v[0] as usize },
            b'A' => Question::Archive,
            b'G' => Question::Range {
                farm: low_word(v[0]),
            },
            b'Q' => Question::Sound,
            _ => return Err(NotAsked),
        })
    }
}

impl TryFrom<(u8, [u64; NUMBERS])> for Entry {
    type Error = NotAsked;

    fn try_from(line: (u8, [u64; NUMBERS])) -> Result<Self, NotAsked> {
        let (letter, v) = line;
        let i = v[0] as usize;
        let n = v[1] as usize;
        Ok(match letter {
            b'N' => Entry::New { n: i, s: n },
            b'L' => Entry::Load {
                slot: i,
                start: n,
                len: v[2] as usize,
            },
            b'O' => Entry::Open { slot: i, len: n },
            b'W' => Entry::OpenWindow {
                slot: i,
                len: n,
                window: window(v[2], v[3]),
            },
            b'F' => Entry::OpenFarm {
                slot: i,
                len: n,
                farm: low_word(v[2]),
            },
            b'T' => Entry::Turn {
                session: i,
                steps: v[1],
            },
            b'X' => Entry::Close { session: i },
            _ => return Err(NotAsked),
        })
    }
}

// Asks and tells. What is seen stays as it is.
pub fn look(w: &Seen, asked: Question) {
    match asked {
        Question::Judge => {
            judge(w.store);
        }
        Question::Turned { len } => {
            turn(w.store, len);
        }
        Question::Archive => {
            w.archive_judged();
        }
        Question::Range { farm } => {
            w.range(farm);
        }
        Question::Sound => {
            w.is_sound();
        }
    }
}

fn judge(store: &[u8]) {
    let v = checks::judge(store);
    match v {
        Ok(()) => {
            header(segment::head(store), routines(store));
        }
        Err(refusal) => {
            refused(refusal, &[]);
        }
    }
}

fn header(h: Segment, routines: u64) {
    let n = [
        h.words as u64,
        u64::from(h.least),
        u64::from(h.dict),
        u64::from(h.reloc),
        u64::from(h.pool),
        h.reals as u64,
        u64::from(h.real),
        u64::from(h.count),
    ];
    tell(b'a', &n, &[routines]);
}

// The digest of the numbers of every routine.
fn routines(store: &[u8]) -> u64 {
    let n = segment::head(store).count;
    (1..=n).fold(0, |d, k| routine(store, k, d))
}

fn routine(store: &[u8], k: u16, d: u64) -> u64 {
    let r = segment::routine_of(store, k);
    let n = [
        u64::from(r.entry),
        u64::from(r.datasize),
        u64::from(r.exitic),
        u64::from(r.start),
    ];
    n.into_iter().fold(d, digest::taken)
}

fn turn(store: &[u8], len: usize) {
    let mut out = [0xAAu8; OUTPUT];
    turned(store, &mut out, len);
}

// The first len bytes of the room are the output: all of them where it has fewer. Apart from `turn`, a proof knows the room's length and carries no array.
fn turned(store: &[u8], room: &mut [u8], len: usize) {
    let n = len.min(room.len());
    let out = &mut room[..n];
    let v = turning::turn(store, out);
    let d = [digest::of(out)];
    match v {
        Ok(()) => {
            tell(b'a', &[], &d);
        }
        Err(refusal) => {
            refused(refusal, &d);
        }
    }
}

fn refused(refusal: Refusal, digests: &[u64]) {
    tell(
        b'r',
        &[u64::from(refusal.number()), u64::from(refusal.place())],
        digests,
    );
}

// An entry of the bench, or of the archive: asked and answered, and the bench after it takes the old one's place.
pub fn enter(w: &mut Seen, asked: Entry) {
    let out = w.entered(asked);
    w.bench = out.bench;
    answers::told(out.answer, w.turned(asked), out.bench, w.memory);
}

impl Seen<'_> {
    fn is_sound(&self) {
        let sound = sound_test::is_sound(self.bench, self.memory, self.store);
        tell(if sound { b'y' } else { b'n' }, &[], &[]);
    }

    fn archive_judged(&self) {
        let v = archive::accept(self.bench, self.memory, self.store);
        match v {
            Ok(()) => {
                tell(b'a', &[], &[]);
            }
            Err(refusal) => {
                refused(refusal, &[]);
            }
        }
    }

    fn range(&self, farm: u16) {
        let found = archive::range(self.bench, self.memory, self.store, farm);
        match found {
            Ok(w) => {
                tell(b'a', &[w.first as u64, w.len as u64], &[]);
            }
            Err(refusal) => {
                refused(refusal, &[]);
            }
        }
    }

    fn entered(&mut self, asked: Entry) -> Out {
        let b = self.bench;
        let memory = &mut *self.memory;
        let store = self.store;
        match asked {
            Entry::New { n, s } => renewed(b, n, s),
            Entry::Load { slot, start, len } => bench::load(b, memory, store, slot, start, len),
            Entry::Open { slot, len } => bench::open_session(b, memory, store, slot, len),
            Entry::OpenWindow { slot, len, window } => {
                bench::open_window(b, memory, store, slot, len, window)
            }
            Entry::OpenFarm { slot, len, farm } => {
                archive::open_farm(b, memory, store, slot, len, farm)
            }
            Entry::Turn { session, steps } => bench::turn(b, memory, store, session, steps),
            Entry::Close { session } => bench::close(b, memory, store, session),
        }
    }

    // The registers that a turn is answered with.
    fn turned(&self, asked: Entry) -> Option<Cpu> {
        match asked {
            Entry::Turn { session, .. } => Some(session_at(self.bench, session).cpu),
            _ => None,
        }
    }
}

// A new bench, or the old one where that is refused.
fn renewed(b: Bench, n: usize, s: usize) -> Out {
    let out = bench::new_bench(n, s);
    let answer = out.answer;
    match answer {
        Ok(_) => out,
        Err(_) => Out { answer, bench: b },
    }
}

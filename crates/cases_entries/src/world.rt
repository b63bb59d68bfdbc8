// The world that the lines are about: a bench, and the words of memory and bytes of store that are lent.
// Above it: the input, which has the lines. Below it: what a line sets up, and what it asks.
use cases_lines::numbers::{NUMBERS, letter, low_byte, low_word, numbers};
use cases_lines::setup;
use cases_lines::setup::Part;
use cases_requests::{Entry, Question, Seen};
use sound::Bench;

// The letters of the lines whose numbers are read at once; `w` and `b` have lists behind their first.
const NUMBERED: &[u8] = b"mcznserJVQAGNLOWFTX";

// Words or bytes, the first so many of which are lent.
#[derive(Drop)]
struct Lent<'a, T> {
    all: &'a mut [T],
    count: usize,
}

impl<T: Copy> Lent<'_, T> {
    // Lends the first so many, all alike. More than there are do not fit.
    fn lend(&mut self, count: u64, fill: T) {
        let n = count as usize;
        if n <= self.all.len() {
            self.all[..n].fill_with(|| fill);
            self.count = n;
        }
    }

    fn lent(&mut self) -> &mut [T] {
        let n = self.count.min(self.all.len());
        &mut self.all[..n]
    }
}

#[derive(Drop)]
pub(crate) struct World<'a> {
    bench: Bench,
    memory: Lent<'a, u16>,
    store: Lent<'a, u8>,
}

impl<'a> World<'a> {
    pub(crate) fn new(memory: &'a mut [u16], store: &'a mut [u8]) -> Self {
        World {
            bench: setup::no_bench(),
            memory: Lent {
                all: memory,
                count: 0,
            },
            store: Lent {
                all: store,
                count: 0,
            },
        }
    }

    // Follows each line of bytes that end with a line's end: behind it the split has one line more, which is empty and so ignored.
    pub(crate) fn lines(&mut self, bytes: &[u8]) {
        for text in bytes.split(|b| *b == b'\n') {
            self.line(text);
        }
    }

    // Follows a line. A letter of no line is ignored, and the numbers behind it are not read: a remark may be long.
    pub(crate) fn line(&mut self, text: &[u8]) {
        match letter(text) {
            Some(b'w') => setup::words(self.memory.lent(), text),
            Some(b'b') => setup::bytes(self.store.lent(), text),
            Some(what) if NUMBERED.contains(&what) => self.follow(what, numbers(text)),
            _ => {}
        }
    }

    // Lends, sets a part of the bench, or asks.
    fn follow(&mut self, what: u8, v: [u64; NUMBERS]) {
        let line = (what, v);
        if what == b'm' {
            self.memory.lend(v[0], low_word(v[1]));
        } else if what == b'c' {
            self.store.lend(v[0], low_byte(v[1]));
        } else if let Ok(part) = Part::try_from(line) {
            setup::bench(&mut self.bench, part);
        } else if let Ok(asked) = Question::try_from(line) {
            cases_requests::look(&self.seen(), asked);
        } else if let Ok(asked) = Entry::try_from(line) {
            let mut seen = self.seen();
            cases_requests::enter(&mut seen, asked);
            let bench = seen.bench;
            self.bench = bench;
        }
    }

    fn seen(&mut self) -> Seen<'_> {
        Seen {
            bench: self.bench,
            memory: self.memory.lent(),
            store: self.store.lent(),
        }
    }
}

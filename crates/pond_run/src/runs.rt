// `run FILE [WORDS [STEPS]] [with ARCHIVE [for FARM]]`: a segment on a bench of its own, to its end; how it ended, and its words.
// Above it: the console. Below it: the other commands, as they are.
use machine::Kind;
use pond_bench::Site;
use pond_look::{Wanted, told};
use pond_rows::View;
use pond_say::Outcome;
use pond_slots::{fills, loads};
use pond_why::faults;
use sound::Bench;
use text::front;

// The words and the steps of a run of which nothing else is said.
const WORDS: usize = 1000;

const STEPS: u64 = 1000000000;

// No session has more words, and no bench more shared ones.
const MOST: usize = 32768;

// What is said of a run: nothing, its words, or its words and its steps.
#[derive(Clone, Copy)]
pub enum Size {
    Usual,
    Words(u64),
    Both(u64, u64),
}

impl Size {
    // How many words: if it is not said, room for the globals, the mark and 250 words of stack at least.
    fn words(self, seg: &[u8]) -> usize {
        match self {
            Size::Usual => {
                let first = segment::routine_of(seg, 1);
                (256 + first.datasize as usize).clamp(WORDS, MOST)
            }
            Size::Words(words) | Size::Both(words, _) => words as usize,
        }
    }

    fn steps(self) -> u64 {
        match self {
            Size::Both(_, steps) => steps,
            _ => STEPS,
        }
    }
}

// What is run: the segment and its file, the bytes of the shared words and the archive's file, and what the report sees of them.
#[derive(Clone, Copy)]
struct Report<'a> {
    file: &'a [u8],
    seg: &'a [u8],
    archive: &'a [u8],
    shared: &'a [u8],
    view: View,
    size: Size,
}

// An archive is a file of shared words, two bytes a word, and for a farm a text file of records; where its name has no bytes, there are none.
pub fn run(rt: &HostRuntime, file: &[u8], size: Size, archive: &[u8], view: View) -> Outcome {
    let mut store = io::large_buffer();
    let Some(seg) = pond_files::read(rt, file, &mut store) else {
        return Outcome::File;
    };
    let mut room = space();
    let Some(shared) = bytes_of(rt, archive, &mut room, view) else {
        return Outcome::File;
    };
    let report = Report {
        file,
        seg,
        archive,
        shared,
        view,
        size,
    };
    report.alone(rt)
}

// One byte more than the most shared words take, so that a longer file is told from it.
fn space() -> [u8; 65538] {
    [0u8; 65538]
}

// The bytes of the archive's words: those of the file, or those of its records; and none where there is no archive.
fn bytes_of<'a>(
    rt: &HostRuntime,
    archive: &[u8],
    room: &'a mut [u8],
    view: View,
) -> Option<&'a [u8]> {
    if archive.len() == 0 {
        return Some(b"");
    }
    if let View::Farm(_) = view {
        return pond_archive::read(rt, archive, room);
    }
    pond_files::read(rt, archive, room)
}

// Every word that a bench of one session and its archive can have.
fn memory_of_most() -> [u16; 65536] {
    [0u16; 65536]
}

impl Report<'_> {
    // A bench of the archive's words and so many more, as far as a session can have them: opening refuses more.
    fn alone(self, rt: &HostRuntime) -> Outcome {
        let mut words = memory_of_most();
        let mut book = pond_rows::book();
        let s = (self.shared.len() / 2).min(MOST);
        let n = s + self.size.words(self.seg).min(MOST);
        let memory = &mut words[..n];
        let made = bench::new_bench(n, s);
        let o = self.poured(made.bench, memory);
        if !pond_say::went(o) {
            return o;
        }
        let len = self.seg.len();
        let loaded = loads::asked(
            made.bench, memory, self.seg, &mut book, b"", self.file, 0, 0, len,
        );
        if !pond_say::went(loaded.outcome) {
            return loaded.outcome;
        }
        let mut site = Site {
            bench: loaded.bench,
            memory,
            store: self.seg,
            book: &mut book,
        };
        self.ran(rt, &mut site)
    }

    fn poured(self, b: Bench, memory: &mut [u16]) -> Outcome {
        if let View::Farm(_) = self.view {
            fills::from_records(memory, self.archive, self.shared);
            return Outcome::Done;
        }
        if self.archive.len() > 0 {
            return fills::from_bytes(b, memory, self.archive, self.shared);
        }
        Outcome::Done
    }

    fn ran(self, rt: &HostRuntime, site: &mut Site) -> Outcome {
        let words = self.size.words(self.seg) as u64;
        let o = match self.view {
            View::Farm(farm) => site.open_for(0, words, b"", farm),
            _ => site.open(0, words, b""),
        };
        if !pond_say::went(o) {
            return o;
        }
        let steps = site.turns(rt, 0, self.size.steps());
        let o = ended(site, steps);
        pond_bench::stopped(rt, o)
    }
}

// How it ended, how deep its stack went, and its words; the fault's line is the last one.
fn ended(site: &Site, steps: u64) -> Outcome {
    let se = told::record(site.bench, 0);
    site.ended(0, steps);
    faults::instruction(site.bench, site.store, se);
    pond_look::deepest(site.bench, site.store, se);
    pond_look::words(site.bench, site.memory, site.book, 0, Wanted::All);
    let seen = pond_windows::seen_by(site.book, se, 0);
    let o = faults::reason(site.bench, site.memory, site.store, se, seen);
    // a report that is still ready has done all its steps, and has not finished
    if let Kind::Ready = se.cpu.kind {
        pond_say::text(b"not finished: all its steps are done; run it with more\n");
        return Outcome::Fault;
    }
    o
}

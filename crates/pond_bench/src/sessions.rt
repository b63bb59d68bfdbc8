// `open SLOT WORDS`, also for a farm or with a window, `show SESSION`, `close SESSION`.
// Above it: the console. Below it: the bench, the archive, and what is told of windows and of a fault.
use crate::site::Site;
use bench::{Out, Refusal};
use plan::Regs;
use pond_look::{refusals, told};
use pond_phrases::say;
use pond_rows::{Bytes, View};
use pond_say::Outcome;
use sound::Window;

// Every opening is one of three: with all shared words, with a farm's records, and with a window that is named by its numbers.
impl Site<'_> {
    pub fn open(&mut self, slot: u64, words: u64, name: &[u8]) -> Outcome {
        let out = bench::open_session(
            self.bench,
            self.memory,
            self.store,
            slot as usize,
            words as usize,
        );
        self.answered(out, slot, name, View::All)
    }

    pub fn open_for(&mut self, slot: u64, words: u64, name: &[u8], farm: u16) -> Outcome {
        let out = archive::open_farm(
            self.bench,
            self.memory,
            self.store,
            slot as usize,
            words as usize,
            farm,
        );
        self.answered(out, slot, name, View::Farm(farm))
    }

    pub fn open_window(
        &mut self,
        slot: u64,
        words: u64,
        name: &[u8],
        first: u64,
        count: u64,
    ) -> Outcome {
        let window = Window {
            first: first as usize,
            len: count as usize,
        };
        let out = bench::open_window(
            self.bench,
            self.memory,
            self.store,
            slot as usize,
            words as usize,
            window,
        );
        self.answered(out, slot, name, View::Window)
    }

    // What an opening answered: the session's lines, and its name and what it was opened for into the book; or the refusal.
    fn answered(&mut self, out: Out, slot: u64, name: &[u8], view: View) -> Outcome {
        self.bench = out.bench;
        match out.answer {
            Ok(i) => self.opened(i as usize, name, view),
            Err(refusal) => self.not_opened(slot, refusal),
        }
    }

    fn opened(&mut self, i: usize, name: &[u8], view: View) -> Outcome {
        pond_rows::put(self.book, pond_rows::session_row(i), name);
        pond_rows::put_view(self.book, i, view);
        self.state(i);
        let se = self.session(i);
        pond_windows::opened(pond_windows::seen_by(self.book, se, i));
        Outcome::Done
    }

    fn not_opened(&self, slot: u64, refusal: Refusal) -> Outcome {
        if refusal == Refusal::NotArchive {
            return pond_windows::refused(self.bench, self.memory, refusal);
        }
        refusals::not_loaded(refusal, slot)
    }

    // `session 0 north: slot 0 north, words 8 to 107 of memory, ready, from north.seg`
    fn state(&self, i: usize) {
        let se = self.session(i);
        told::session(self.book, i);
        pond_say::text(b": ");
        told::slot_of(self.book, se.slot);
        told::span(b", words # to # of memory, ", se.base, se.len);
        told::stands(self.book, se);
    }

    // A session's fault is told and is no failure of this command.
    pub fn show(&self, session: u64) -> Outcome {
        let i = session as usize;
        let se = self.session(i);
        if !se.used {
            return refusals::of_session(Refusal::NotThere, session);
        }
        self.state(i);
        pond_windows::shown(pond_windows::seen_by(self.book, se, i));
        registers(se.cpu.regs);
        pond_look::deepest(self.bench, self.store, se);
        self.instruction(i);
        self.reason(i);
        Outcome::Done
    }

    pub fn close(&mut self, session: u64) -> Outcome {
        let i = session as usize;
        let se = self.session(i);
        let out = bench::close(self.bench, self.memory, self.store, i);
        self.bench = out.bench;
        match out.answer {
            Ok(_) => {
                told::session(self.book, i);
                told::span(b": closed, words # to # are free\n", se.base, se.len);
                pond_rows::put(self.book, pond_rows::session_row(i), b"");
                pond_rows::put_view(self.book, i, View::All);
                Outcome::Done
            }
            Err(refusal) => refusals::of_session(refusal, session),
        }
    }
}

fn registers(r: Regs) {
    say(
        b"  SP #, M #, counter #, routine #\n",
        &[r.sp as u64, r.m as u64, r.counter as u64, r.routine as u64],
    );
}

// A site: a bench with all that its commands are lent. (Not a desk: request 5 has that word for who owns a session.)
// Above it: the commands on sessions, here and in the crates above. Below it: the bench's numbers, and what is told of a fault.
use pond_look::told;
use pond_rows::Bytes;
use pond_say::Outcome;
use pond_why::faults;
use sound::{Bench, Session};

// The memory is the bench's own words and no others, the store has the segments' bytes, and the book the names of sessions and slots.
#[derive(Drop)]
pub struct Site<'a> {
    pub bench: Bench,
    pub memory: &'a mut [u16],
    pub store: &'a [u8],
    pub book: &'a mut [Bytes],
}

impl Site<'_> {
    // Session record i, or one that is not used where there is no such record.
    pub(crate) fn session(&self, i: usize) -> Session {
        told::record(self.bench, i)
    }

    // The line of the instruction at which session i has faulted.
    pub(crate) fn instruction(&self, i: usize) {
        faults::instruction(self.bench, self.store, self.session(i));
    }

    // The last line of session i: why it has faulted.
    pub(crate) fn reason(&self, i: usize) -> Outcome {
        let se = self.session(i);
        let seen = pond_windows::seen_by(self.book, se, i);
        faults::reason(self.bench, self.memory, self.store, se, seen)
    }
}

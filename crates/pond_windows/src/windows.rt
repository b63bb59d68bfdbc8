// The window of a session, with what its record and the book say of it.
// Above it: all that speaks of windows. Below it: the bench and the book.
use pond_rows::{Bytes, View};
use sound::{Session, Window};

// For whom a session was opened, and what it sees of the shared words.
#[derive(Clone, Copy)]
pub struct Seen {
    pub view: View,
    pub window: Window,
}

pub fn seen_by(book: &[Bytes], se: Session, i: usize) -> Seen {
    Seen {
        view: pond_rows::view_of(book, i),
        window: se.window,
    }
}

// What a session was opened for, as the book keeps it: no bytes for all the shared words, one byte for a window that was named by its numbers, and two
// for a farm, least byte first. Which words a session sees stands in its record on the bench, and not here.
// Above it: the commands that open a session, and what is told of one. Below it: rows.
use crate::kept::{Bytes, put, row};
use crate::names::view_row;

#[derive(Clone, Copy)]
pub enum View {
    All,
    Window,
    Farm(u16),
}

pub fn view_of(book: &[Bytes], i: usize) -> View {
    match row(book, view_row(i)) {
        [] => View::All,
        [_] => View::Window,
        [low, high, ..] => View::Farm(u16::from_le_bytes([*low, *high])),
    }
}

pub fn put_view(book: &mut [Bytes], i: usize, v: View) {
    let k = view_row(i);
    match v {
        View::All => put(book, k, b""),
        View::Window => put(book, k, b"w"),
        View::Farm(n) => put(book, k, &n.to_le_bytes()),
    }
}

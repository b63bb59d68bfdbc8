// The book, rows 0 to 15 for the names of the sessions, 16 to 31 for those of the slots, 32 to 47 for the slots' files, 48 to 63 for what the sessions
// were opened for; and the tape, the verb and up to 7 words of a command. A name that is not given is a row without bytes.
// Above it: the console's commands. Below it: rows, and `text` for whether two names are the same.
use crate::kept::{Bytes, row, rows};
use text::same;

// No book has this row.
const NONE: usize = 64;

pub fn book() -> [Bytes; 64] {
    rows()
}

pub fn tape() -> [Bytes; 8] {
    rows()
}

// Row i of the 16 from first on, or row 64 where there is no such session or slot. The number stays a plain one: a row that is not there reads as no bytes and
// takes none, so that no caller has to ask.
fn among(first: usize, i: usize) -> usize {
    if i < 16 && first <= 48 {
        first + i
    } else {
        NONE
    }
}

// The rows of session i and of slot i.
pub fn session_row(i: usize) -> usize {
    among(0, i)
}

pub fn slot_row(i: usize) -> usize {
    among(16, i)
}

pub fn file_row(i: usize) -> usize {
    among(32, i)
}

pub fn view_row(i: usize) -> usize {
    among(48, i)
}

pub fn session_name(book: &[Bytes], i: usize) -> &[u8] {
    row(book, session_row(i))
}

pub fn slot_name(book: &[Bytes], i: usize) -> &[u8] {
    row(book, slot_row(i))
}

pub fn file_of(book: &[Bytes], i: usize) -> &[u8] {
    row(book, file_row(i))
}

// Which of the 16 rows from first on holds the name, counted from 0.
pub fn find(book: &[Bytes], first: usize, name: &[u8]) -> Option<usize> {
    (0..16).find(|&i| same(row(book, among(first, i)), name))
}

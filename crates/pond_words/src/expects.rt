// Numbers and names read from words, and what is said where they cannot be. Of what answers none it has been said why.
// Above it: the commands. Below it: the book of names, and how the console speaks.
use crate::forms::{Form, expected};
use numbers::{NoNumber, number_of};
use pond_rows::{Bytes, row};

// The first rows of the names of sessions and of slots.
const SESSIONS: usize = 0;

const SLOTS: usize = 16;

// The longest name.
const LONGEST: usize = 24;

// The numbers that are given, two at most.
#[derive(Clone, Copy, Debug, PartialEq, Eq)]
pub enum Given {
    Nothing,
    One(u64),
    Two(u64, u64),
}

// Says a sentence with a word in it.
fn around(before: &[u8], word: &[u8], behind: &[u8]) {
    pond_say::text(before);
    pond_say::path(word);
    pond_say::text(behind);
}

// A word of a command, as a number.
pub fn number(word: &[u8], form: Form) -> Option<u64> {
    let n = number_of(word);
    if n == Err(NoNumber::Not) {
        expected(form);
    }
    value(n, word)
}

// What a word says as a number. Of one that is none nothing is said here.
pub fn value(n: Result<u64, NoNumber>, word: &[u8]) -> Option<u64> {
    if n == Err(NoNumber::Beyond) {
        around(
            b"cannot follow that: ",
            word,
            b" is past 64 bits: the largest number is 18446744073709551615\n",
        );
    }
    n.ok()
}

// So many words, two at most, from word k of the tape on, as numbers. Of two that are none the first is told.
pub fn numbers_at(form: Form, tape: &[Bytes], k: usize, count: u8) -> Option<Given> {
    if count == 0 {
        return Some(Given::Nothing);
    }
    let first = number(row(tape, k), form)?;
    if count == 1 {
        return Some(Given::One(first));
    }
    // only the first few words are ever asked for
    let second = number(row(tape, k.saturating_add(1)), form)?;
    Some(Given::Two(first, second))
}

// The number of a farm.
pub fn farm(word: &[u8], form: Form) -> Option<u16> {
    let f = u16::try_from(number(word, form)?);
    if f.is_err() {
        around(
            b"cannot follow that: ",
            word,
            b" is no farm: they have numbers 0 to 65535\n",
        );
    }
    f.ok()
}

// The session of a number, open or not, or of a name.
pub fn session(book: &[Bytes], word: &[u8]) -> Option<u64> {
    numbered(
        book,
        SESSIONS,
        word,
        b"cannot follow that: no session is called ",
        b"; map lists those that are open\n",
    )
}

// The slot of a number, loaded or not, or of a name.
pub fn slot(book: &[Bytes], word: &[u8]) -> Option<u64> {
    numbered(
        book,
        SLOTS,
        word,
        b"cannot follow that: no slot is called ",
        b"; slots lists those that are loaded\n",
    )
}

// The number that the word says, or that of the row, from first on, that holds it as a name.
fn numbered(book: &[Bytes], first: usize, word: &[u8], none: &[u8], lists: &[u8]) -> Option<u64> {
    let n = number_of(word);
    if n != Err(NoNumber::Not) {
        return value(n, word);
    }
    let found = pond_rows::find(book, first, word);
    if found.is_none() {
        around(none, word, lists);
    }
    found.map(|i| i as u64)
}

// Whether a session, or a slot, can be given this name; else it has been said why not.
pub fn new_session(book: &[Bytes], word: &[u8]) -> bool {
    fresh(
        book,
        SESSIONS,
        word,
        b"cannot follow that: a session is called ",
    )
}

pub fn new_slot(book: &[Bytes], word: &[u8]) -> bool {
    fresh(book, SLOTS, word, b"cannot follow that: a slot is called ")
}

fn fresh(book: &[Bytes], first: usize, word: &[u8], taken: &[u8]) -> bool {
    if LONGEST < word.len() {
        pond_say::text(b"cannot follow that: a name has at most 24 bytes\n");
        return false;
    }
    if pond_rows::find(book, first, word).is_none() {
        return true;
    }
    around(taken, word, b" already\n");
    false
}

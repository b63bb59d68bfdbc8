// Phrases that several commands say, and the parts of a bench that they speak of.
// Above it: every command on a bench. Below it: how the console speaks.
use machine::Kind;
use pond_phrases::say;
use pond_rows::Bytes;
use sound::{Bench, Session, Slot};

// No memory has more words; so no sum of a base and a length below it wraps.
const MOST: usize = 1048576;

// `session 0`, or `session 0 north` where it has a name.
pub fn session(book: &[Bytes], i: usize) {
    say(b"session #", &[i as u64]);
    named(pond_rows::session_name(book, i));
}

// `slot 0`, or `slot 0 north` where it has a name.
pub fn slot_of(book: &[Bytes], i: usize) {
    say(b"slot #", &[i as u64]);
    named(pond_rows::slot_name(book, i));
}

// `ready, from north.seg`, the end of its line too: a session's kind, and the file of its slot.
pub fn stands(book: &[Bytes], se: Session) {
    standing(se.cpu.kind);
    pond_say::text(b", from ");
    pond_say::path(pond_rows::file_of(book, se.slot));
    pond_say::end();
}

fn named(name: &[u8]) {
    if name.len() > 0 {
        pond_say::blanks(1);
        pond_say::path(name);
    }
}

// A phrase with two marks, for the first and the last of len words from base on. The two are no struct here: a session's record has them as two fields
// (sound::Session), so each caller would only make the pair first.
pub fn span(phrase: &[u8], base: usize, len: usize) {
    say(phrase, &[base as u64, last(base, len) as u64]);
}

// The last of len words from base on, or base where there is none.
pub fn last(base: usize, len: usize) -> usize {
    if len == 0 {
        return base;
    }
    past(base, len - 1)
}

// The word after the len words from base on.
pub fn past(base: usize, len: usize) -> usize {
    if base > MOST || len > MOST {
        return base;
    }
    base + len
}

// A session's kind in words.
pub fn standing(k: Kind) {
    match k {
        Kind::Ready => pond_say::text(b"ready"),
        Kind::Finished => pond_say::text(b"finished"),
        Kind::Faulted(number, _) => say(b"fault #", &[u64::from(number)]),
    }
}

// Session record i, or one that is not used where there is no such record. It is no Option: used and loaded are the bench's own flags (sound::Session, sound::Slot),
// and what is told after an entry is told of a record that is there.
pub fn record(b: Bench, i: usize) -> Session {
    match b.sessions.get(i) {
        Some(se) => *se,
        None => sound::no_session(),
    }
}

// Slot i, or one that is not loaded where there is no such slot.
pub fn slot(b: Bench, i: usize) -> Slot {
    match b.slots.get(i) {
        Some(sl) => *sl,
        None => sound::no_slot(),
    }
}

// The bytes of a slot.
pub fn code(b: Bench, store: &[u8], slot_number: usize) -> &[u8] {
    let sl = slot(b, slot_number);
    bounds::code_of(store, sl.start, sl.len)
}

// The len words from base on, as many of them as there are.
pub fn region(memory: &[u16], base: usize, len: usize) -> &[u16] {
    memory.get(base..past(base, len)).unwrap_or(&[])
}

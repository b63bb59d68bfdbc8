// `map`: every word of the memory in one line, in order of place: shared, a session's, or free.
// Above it: the console. Below it: the bench's numbers.
use crate::told;
use pond_rows::Bytes;
use sound::{Bench, Session};

pub fn map(b: Bench, book: &[Bytes]) {
    if b.n == 0 {
        pond_say::text(b"the memory has no words\n");
        return;
    }
    if b.s > 0 {
        told::span(b"words # to #: shared\n", 0, b.s);
    }
    lines(b, book, b.s, b.n);
}

fn lines(b: Bench, book: &[Bytes], from: usize, n: usize) {
    let mut at = from;
    while at < n {
        let next = line(b, book, at, n);
        if next <= at {
            break;
        }
        at = next;
    }
}

// The line that begins with word at; the word after it.
fn line(b: Bench, book: &[Bytes], at: usize, n: usize) -> usize {
    let owner = b.sessions.iter().position(|se| se.used && se.base == at);
    if let Some(i) = owner {
        return owned(b, book, i);
    }
    let next = nearest(&b.sessions, at, n);
    told::span(b"words # to #: free\n", at, next.saturating_sub(at));
    next
}

// `words 8 to 39: session 0 north, finished, from north.seg`
fn owned(b: Bench, book: &[Bytes], i: usize) -> usize {
    let se = told::record(b, i);
    told::span(b"words # to #: ", se.base, se.len);
    told::session(book, i);
    pond_say::text(b", ");
    told::stands(book, se);
    told::past(se.base, se.len)
}

// The first word from at on where a region begins, or n.
fn nearest(sessions: &[Session], at: usize, n: usize) -> usize {
    let begins = sessions.iter().filter(|se| se.used).map(|se| se.base);
    begins
        .filter(|base| at <= *base && *base < n)
        .min()
        .unwrap_or(n)
}

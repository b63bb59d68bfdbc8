// Sentences of addresses and of words of the pool: fault 6.
// Above it: `said`. Below it: the sentences of windows, and how a sentence is said.
use crate::said::{end, sentence};
use crate::said_windows;
use cause::{Address, Numbers, Place, less};
use pond_rows::View;

// The first address of a shared word.
const SHARED: usize = 32768;

pub fn place(n: Numbers, p: Place) {
    let words = usize::from(n.code) / 2;
    match p {
        Place::Offset(x, m, at) => offset(n, x, m, at),
        Place::NoPool => sentence(
            b"it wants a constant, and the segment has no constant pool",
            &[],
        ),
        Place::Pool(x, at) => sentence(
            b"constant # of the pool at word # is word #, and the segment has words 0 to #",
            &[usize::from(x), usize::from(n.pool), at, less(words, 1)],
        ),
        Place::NoTable => sentence(
            b"it wants a case table, and the segment has no constant pool",
            &[],
        ),
        Place::Constants(first, last, ends) => {
            constants(first as usize, last as usize);
            readable(ends, words);
        }
        Place::Table(at, ends) => {
            sentence(
                b"its case table begins with words # and # of the segment",
                &[at as usize, at as usize + 1],
            );
            readable(ends, words);
        }
        Place::Arm(i, at, ends) => {
            sentence(
                b"for index ~ its case table has word # of the segment",
                &[usize::from(i), at as usize],
            );
            readable(ends, words);
        }
    }
}

// The record at word 1 is the globals'.
fn offset(n: Numbers, x: u16, m: u16, at: usize) {
    sentence(
        b"offset # of the record at word #",
        &[usize::from(x), usize::from(m)],
    );
    if m == 1 {
        pond_say::text(b", the globals,");
    }
    sentence(
        b" is word #; the report has words 1 to #",
        &[at, less(usize::from(n.len), 1)],
    );
}

// The words that are pushed, the first and the last, or the one.
fn constants(first: usize, last: usize) {
    let many = if first == last { 1 } else { 2 };
    sentence(
        b"it pushes word% #_ of the segment",
        &[many, first, end(first, last)],
    );
}

// What can be read: without a real pool that ends with the segment, and else where the real pool starts.
fn readable(ends: usize, words: usize) {
    if ends < words {
        sentence(b", and the real pool starts at word #", &[ends]);
    } else {
        sentence(b", and the segment has words 0 to #", &[less(words, 1)]);
    }
}

// Of a session that does not see all shared words, a shared word is one of its window.
pub fn address(n: Numbers, a: Address, view: View) {
    match (view, a) {
        (View::All, _) => of_address(n, a),
        (_, Address::Shared(base, i)) => said_windows::read(n, base, i, view),
        (_, Address::StoreShared(to)) => said_windows::stored(n, to, view),
        _ => of_address(n, a),
    }
}

fn of_address(n: Numbers, a: Address) {
    let last = less(usize::from(n.len), 1);
    match a {
        Address::Nil(i) => sentence(
            b"the address is NIL, and NIL + # is no word",
            &[usize::from(i)],
        ),
        Address::Above(base, i) => {
            sum(
                b"address # + # is #, and the last address is 65535",
                base,
                i,
            );
        }
        Address::Word(base, i) => {
            sum(b"address # + # is word #", base, i);
            sentence(b"; the report has words 1 to #", &[last]);
        }
        Address::Shared(base, i) => shared(base, i, usize::from(n.shared)),
        Address::StoreNil => sentence(b"it stores to NIL, which is no word", &[]),
        Address::StoreWord(to) => sentence(
            b"it stores to address #, which is word #; the report has words 1 to #",
            &[usize::from(to), usize::from(to), last],
        ),
        Address::StoreShared(to) => stored(usize::from(to), usize::from(n.shared)),
    }
}

// An address, the index, and their sum.
fn sum(text: &[u8], base: u16, i: u16) {
    let (base, i) = (usize::from(base), usize::from(i));
    sentence(text, &[base, i, base + i]);
}

// A shared word that is not there, and which ones are.
fn shared(base: u16, i: u16, words: usize) {
    let (base, i) = (usize::from(base), usize::from(i));
    sentence(
        b"address # + # is shared word #",
        &[base, i, less(base + i, SHARED)],
    );
    there(words);
}

fn there(words: usize) {
    if words == 0 {
        pond_say::text(b"; there are no shared words");
    } else {
        sentence(b"; the report has shared words 0 to #", &[less(words, 1)]);
    }
}

// A store to a shared word, which may be there.
fn stored(to: usize, words: usize) {
    let at = less(to, SHARED);
    sentence(b"it stores to address #, which is shared word #", &[to, at]);
    if words <= at {
        there(words);
    }
    pond_say::text(b", and a shared word can only be read");
}

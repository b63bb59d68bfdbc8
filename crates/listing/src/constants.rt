// Words of the constant pool as a person reads them: those that LDC pushes, and how it is said that words cannot be read.
// Above it: what an instruction does, and case tables. Below it: the header numbers of `segment`, a segment's words in `operand`, and how the console speaks.
use segment::Segment;

// The mode in which words are numbers, so that they are read in the segment's own byte sex. In every other they are bytes, and the first is the least.
const NUMBERS: u16 = 2;

// How many words a line shows.
const SHOWN: u16 = 8;

// The place of the n words from word b of the pool on, and then the words, in the order in which they are pushed.
pub fn pushed(seg: &[u8], mode: u16, b: u16, n: u16) {
    let h = segment::head(seg);
    if h.pool == 0 {
        pond_say::text(b"(no pool)");
        return;
    }
    let at = u32::from(h.pool) + u32::from(b);
    if n == 0 {
        place(at, at);
        pond_say::text(b")");
        return;
    }
    let last = at + u32::from(n) - 1;
    place(at, last);
    if (last as usize) < h.reals {
        pond_say::text(b"): ");
        words(seg, h, mode, b, n);
        return;
    }
    if n > 1 {
        pond_say::text(b", the last");
    } else {
        pond_say::text(b",");
    }
    beyond(h, last);
    pond_say::text(b")");
}

// Whether such words are read least byte first.
fn least_first(h: Segment, mode: u16) -> bool {
    mode != NUMBERS || h.least
}

// Where words of the segment stand.
pub fn place(first: u32, last: u32) {
    if first == last {
        pond_say::text(b"(word ");
        pond_say::number(u64::from(first));
    } else {
        pond_say::text(b"(words ");
        pond_say::number(u64::from(first));
        pond_say::text(b" to ");
        pond_say::number(u64::from(last));
    }
}

// Why a word that lies too high cannot be read. The pool ends with the segment.
pub fn beyond(h: Segment, w: u32) {
    if h.words <= w as usize {
        pond_say::text(b" outside the pool");
    } else {
        pond_say::text(b" in the real pool");
    }
}

// The first words from word b of the pool on, and how many there are behind them.
fn words(seg: &[u8], h: Segment, mode: u16, b: u16, n: u16) {
    for k in 0..n.min(SHOWN) {
        if k > 0 {
            pond_say::text(b", ");
        }
        let at = u32::from(h.pool) + u32::from(b) + u32::from(k);
        value(operand::word_at(seg, least_first(h, mode), at));
    }
    if n > SHOWN {
        pond_say::text(b" and ");
        pond_say::number(u64::from(n - SHOWN));
        pond_say::text(b" more");
    }
}

// A word as a number in two's complement, and as it stands where that differs.
fn value(w: u16) {
    pond_say::signed(w);
    if w > 32767 {
        pond_say::text(b" (unsigned ");
        pond_say::number(u64::from(w));
        pond_say::text(b")");
    }
}

// The operands in a phrase, each as a person reads it.
// Above it: what an instruction does. Below it: the header numbers of `segment`, and how the console speaks.
use instruction::Target;

// The operands of an instruction in order, its segment, and the byte after it.
#[derive(Clone, Copy)]
pub struct Operands<'a> {
    pub seg: &'a [u8],
    pub x: u16,
    pub y: u16,
    pub z: u16,
    pub next: usize,
}

// A word as a number in two's complement, and as it stands where that differs.
pub fn signed(w: u16) {
    pond_say::signed(w);
    if w > 32767 {
        pond_say::text(b", unsigned ");
        pond_say::number(u64::from(w));
    }
}

// A number of links, words or bytes, which get an s unless there is one.
fn counted(n: u16, thing: &[u8]) {
    pond_say::number(u64::from(n));
    pond_say::text(thing);
    if n != 1 {
        pond_say::text(b"s");
    }
}

pub fn links(n: u16) {
    counted(n, b" link");
    pond_say::text(b" out");
}

pub fn words(n: u16) {
    counted(n, b" word");
}

pub fn bytes(n: u16) {
    counted(n, b" byte");
}

// Where a jump leads, and whether that is out of the code. No segment reaches past byte 65534, so it is always told.
pub fn jump(len: usize, next: usize, distance: u16) {
    let Ok(next) = u16::try_from(next) else {
        return
    };
    match instruction::leads_to(next, distance) {
        Target::Byte(at) => lands(len, at),
        Target::Before(_) => lands(len, 0),
    }
}

// A target below byte 0 counts as 0.
fn lands(len: usize, t: usize) {
    pond_say::number(t as u64);
    if t == 0 {
        pond_say::text(b" or below");
    }
    if !spans::in_code(len, t) {
        pond_say::text(b" (outside the code)");
    }
}

// A routine's number, and whether the segment has it, and its code.
pub fn routine(seg: &[u8], k: u16) {
    pond_say::number(u64::from(k));
    let h = segment::head(seg);
    if !spans::one_to(h.count, k) {
        pond_say::text(b" (not there)");
    } else if segment::routine_of(seg, k).entry == 0 {
        pond_say::text(b" (declared, not linked)");
    }
}

// The word of the segment at which a word of the pool stands, which is what LCO pushes.
pub fn pooled(seg: &[u8], x: u16) {
    let h = segment::head(seg);
    if h.pool == 0 {
        pond_say::text(b"(no pool)");
    } else {
        stands(h.words, usize::from(h.pool) + usize::from(x));
    }
}

fn stands(words: usize, w: usize) {
    pond_say::text(b"(word ");
    pond_say::number(w as u64);
    if words <= w {
        pond_say::text(b", outside the segment");
    }
    pond_say::text(b")");
}

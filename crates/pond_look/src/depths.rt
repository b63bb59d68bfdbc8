// How deep a session's stack went, for the order of a region: the lowest stack pointer, the words that the stack never reached, and the least region that
// would have been enough.
// Above it: show and run. Below it: `depth`, which has the numbers and what they mean, and phrases.
use crate::told;
use machine::Kind;
use pond_phrases::say;
use sound::{Bench, Session};

// The fault of a full stack.
const FULL: u8 = 4;

// Two lines. After a fault 4 nothing is told: the stack was to go lower, and the lowest stack pointer does not say how far.
pub fn deepest(b: Bench, store: &[u8], se: Session) {
    if let Kind::Faulted(FULL, _) = se.cpu.kind {
        return;
    }
    let lowest = se.cpu.regs.lowest;
    let floor = segment::floor(told::code(b, store, se.slot)) as usize;
    reached(floor, se.len, lowest);
    enough(se.len, depth::enough(floor, se.len, lowest));
}

// `  lowest stack pointer 29: the stack never reached words 11 to 28, 18 words`
fn reached(floor: usize, len: usize, lowest: usize) {
    let n = depth::unreached(floor, lowest);
    say(b"  lowest stack pointer #: ", &[lowest as u64]);
    say(
        rest(lowest < len, n),
        &[floor as u64, told::last(floor, n) as u64, n as u64],
    );
    pond_say::end();
}

// What the stack left of its words: none, one, or more; it may never have been used.
fn rest(used: bool, unreached: usize) -> &'static [u8] {
    match (used, unreached) {
        (true, 0) => b"the stack has reached every word down to the globals",
        (true, 1) => b"the stack never reached word #",
        (true, _) => b"the stack never reached words # to #, # words",
        (false, 0) => b"the region has no words for a stack",
        (false, 1) => b"the stack has not been used, so it never reached word #",
        (false, _) => b"the stack has not been used, so it never reached words # to #, # words",
    }
}

// `  enough for the stack so far: a region of 16 words, the least there is`
fn enough(len: usize, words: usize) {
    let phrase: &[u8] = if words == depth::LEAST {
        b"a region of # words, the least there is"
    } else if words < len {
        b"a region of # words"
    } else {
        b"no less than this region of # words"
    };
    pond_say::text(b"  enough for the stack so far: ");
    say(phrase, &[words as u64]);
    pond_say::end();
}

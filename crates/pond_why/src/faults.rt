// What is told of a faulted session: the instruction's line, and the last line with the reason. Of another session nothing is told.
// Above it: show, turn and run. Below it: the listing and the reasons.
use crate::reasons;
use machine::Kind;
use pond_look::told;
use pond_say::Outcome;
use pond_windows::Seen;
use sound::{Bench, Session};

// The line of the instruction that faulted: a fault leaves the counter on it, and its place can be a byte further on.
pub fn instruction(b: Bench, store: &[u8], se: Session) {
    if let Kind::Faulted(_, _) = se.cpu.kind {
        listing::line(told::code(b, store, se.slot), se.cpu.regs.counter);
    }
}

// The last line: `fault 6 at byte 58: ` and why. What it says of the shared words is said of what the session sees of them.
pub fn reason(b: Bench, memory: &[u16], store: &[u8], se: Session, seen: Seen) -> Outcome {
    let Kind::Faulted(number, place) = se.cpu.kind else {
        return Outcome::Done;
    };
    let seg = told::code(b, store, se.slot);
    let region = told::region(memory, se.base, se.len);
    pond_phrases::say(b"fault # at byte #: ", &[u64::from(number), place as u64]);
    reasons::reason(seg, region, seen, se.cpu.regs, number, place);
    pond_say::end();
    Outcome::Fault
}

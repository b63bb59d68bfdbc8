// The turn of one session, on a memory that holds the shared words and the session's region.
// Above: `session` and the bench; below: `steps`, which does one step.
#![tactic(auto)]

mod turns;

use plan::Regs;
pub use turns::{facts_of, is_ready, turn};

// The three kinds of session; a fault has its number and its place. The number is kept, and no enum: a bench that anyone may hand in holds it,
// and `session::kind_ok` decides whether it is one of the paper's.
#[derive(Clone, Copy)]
pub enum Kind {
    Ready,
    Finished,
    Faulted(u8, usize),
}

// What a step changes besides words: the kind and the registers.
#[derive(Clone, Copy)]
pub struct Cpu {
    pub kind: Kind,
    pub regs: Regs,
}

// A session after a turn, and the steps done.
#[derive(Clone, Copy)]
pub struct Turned {
    pub cpu: Cpu,
    pub done: usize,
}

// Bytes, words of either byte sex, and the operands of instructions: what a segment's bytes say at a byte offset.
// Below: basis, whose integers a law cites. Above: the segment's header and verdict, the reader, and the machine's step.
#![tactic(auto)]

mod fetches;
mod parts;

pub use fetches::{big, signed, unsigned, wide};
pub use parts::{byte_at, word_at, word_in};

// An operand that is there: its value and the offset after it.
#[derive(Clone, Copy)]
pub struct Operand {
    pub value: u16,
    pub next: usize,
}

// An operand that is not all there: the offset of the first byte that is missing.
#[derive(Clone, Copy)]
pub struct Missing {
    pub place: usize,
}

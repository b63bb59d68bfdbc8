// The sentence of a check that failed: which of the five kinds it is of, and how it is said.
// Above it: the entry. Below it: the sentences. Nothing here decides.
use crate::{said_flow, said_places, said_stack};
use cause::{Code, Numbers, Why, less};
use pond_phrases::say;
use pond_rows::View;

pub fn why(n: Numbers, w: Why, view: View) {
    match w {
        Why::Code(c) => code(n, c),
        Why::Stack(s) => said_stack::stack(n, s),
        Why::Place(p) => said_places::place(n, p),
        Why::Address(a) => said_places::address(n, a, view),
        Why::Flow(f) => said_flow::flow(n, f),
    }
}

// A sentence with its numbers, at most five, each at its mark.
pub fn sentence(text: &[u8], numbers: &[usize]) {
    let nth = |k: usize| numbers.get(k).map_or(0, |n| *n as u64);
    say(text, &[nth(0), nth(1), nth(2), nth(3), nth(4)]);
}

// The end of a range, or 0 where it is its beginning.
pub fn end(low: usize, high: usize) -> usize {
    if low == high { 0 } else { high }
}

fn code(n: Numbers, c: Code) {
    let counter = usize::from(n.counter);
    let last = less(usize::from(n.code), 1);
    match c {
        Code::Begins => sentence(
            b"the instruction would begin at byte #, and the code is bytes 22 to #",
            &[counter, last],
        ),
        Code::Ends(missing) => sentence(
            b"the instruction at byte # needs byte #, and the segment ends at byte #",
            &[counter, missing, last],
        ),
        Code::Uncarried(first) => sentence(
            b"its first byte, ^ hex, is no instruction that the runner carries; it has no reals, sets, strings, packed fields, long integers or calls \
              to other segments",
            &[usize::from(first)],
        ),
        Code::Level(x) => sentence(
            b"its DB operand is #, and at most 127 is lawful",
            &[usize::from(x)],
        ),
    }
}

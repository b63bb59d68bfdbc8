// Sentences of the stack: faults 3, 5, 10 and 4.
// Above it: `said`. Below it: how a sentence is said.
use crate::said::sentence;
use cause::{Numbers, Stack, less};

pub fn stack(n: Numbers, s: Stack) {
    let floor = n.floor as usize;
    match s {
        Stack::Few(taken, there) => sentence(
            b"it takes # word% from the stack, and there @",
            &[usize::from(taken), usize::from(taken), there],
        ),
        Stack::Zero(dividend) => sentence(b"it divides ~ by zero", &[usize::from(dividend)]),
        Stack::Range(value, low, high) => sentence(
            b"the value ~ lies outside ~ to ~",
            &[usize::from(value), usize::from(low), usize::from(high)],
        ),
        Stack::Deep(after) => sentence(
            b"after it SP would be word #, and the stack may not go below word # (6, and the globals' #); open the session with more words",
            &[after, floor, less(floor, 6)],
        ),
        Stack::Room(k, size, free) => sentence(
            b"it calls routine #, which needs 5 words for its mark and # for its data, and there @ free; open the session with more words",
            &[usize::from(k), usize::from(size), free],
        ),
        Stack::Block(k, free) => sentence(
            b"it pushes # word%, and there @ free; open the session with more words",
            &[usize::from(k), usize::from(k), free],
        ),
    }
}

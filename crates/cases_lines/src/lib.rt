// What a line of docs/CASES.md sets up and what it is answered with: numbers, the parts of a bench, digests, an answer's line.
// Above it: `cases_entries`, which reads the lines and asks. Below it: the types of the bench, and `io`.
//
// Where input is not as docs/CASES.md says: a number keeps its low 64 bits, a word its low 16, a byte or a fault its low 8; a
// missing number is 0; a byte that is no digit is passed over; LOADED or USED above 1 is 1, KIND above 2 is 2.
#![tactic(auto)]

pub mod answers;
pub mod digest;
pub mod numbers;
pub mod setup;
pub mod tell;

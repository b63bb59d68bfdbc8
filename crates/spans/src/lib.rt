// How far code goes: where a routine's code ends, where the line after an instruction begins, and whether a byte or a routine is there.
// Above it: listings. Below it: the header numbers and routines of `segment`, and `bounds`.
#![tactic(auto)]

mod ends;
mod places;

pub use ends::code_end;
pub use places::{NAT, NAT_INFO, forward, in_code, line_after, one_to};

// To look closer: the next instruction and the chain of calls of a session, and its steps one by one.
// Above it: the words of the commands. Below it: the bench, what can be seen of it, and the listing. What a step does is decided by the bench alone.
#![tactic(auto)]

mod chains;
mod stepping;

pub use crate::stepping::step;
pub use chains::closer;

// The rules of document 01 in plain words: a sentence for each refusal and for each fault.
// Above it: every command that can be refused, and what is told of a fault. Below it: how the console speaks.
#![tactic(auto)]

mod faults;
mod refusals;

pub use faults::fault;
pub use refusals::{begun, refused};

// Why a step faults: the first check of document 01's order that fails on a session's numbers, with what it judged. Nothing here prints.
// Above it: `pond_why`, which puts it into words. Below it: `instruction`, which takes the instruction apart, and `segment`.
//
// A step that faults changes no word and no register, so the check that failed fails again on the same numbers.
#![tactic(auto)]

mod flow;
mod judged;
mod meaning;
mod numbers;
mod places;
mod stack;
mod tables;
mod why;

pub use judged::first_failing;
pub use numbers::{Numbers, less, numbers_of};
pub use why::{Address, BadLink, Code, Flow, Place, Stack, Why, fault_of};

// What is told of a session that has faulted: the instruction, and why, in one plain sentence with the numbers of the instruction and of the session.
// Above it: the commands that run a session or show it. Below it: the listing, `cause`, which finds the check that failed, `pond_rules`, and phrases.
#![tactic(auto)]

pub mod faults;
mod reasons;
mod said;
mod said_flow;
mod said_places;
mod said_stack;
mod said_windows;

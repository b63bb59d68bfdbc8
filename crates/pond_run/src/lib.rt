// `run`: one segment from loading to its end, on a bench of its own.
// Above it: the words of the commands. Below it: the commands on a bench, as they are.
#![tactic(auto)]

mod runs;

pub use runs::{Size, run};

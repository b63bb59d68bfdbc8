// The commands on a segment's file: `check`, `list` and `turn FILE OUT`.
// Above it: the console. Below it: segments, their verdicts, their listing and their turning, which decide what happens to a bench or to a segment.
#![tactic(auto)]

mod checked;
mod listed;
mod turned;

pub use checked::check;
pub use listed::list;
pub use turned::turn;

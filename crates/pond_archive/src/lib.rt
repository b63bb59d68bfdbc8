// The commands on the archive, which is the shared words as records of four words each: its verdict and its farms, one farm's records, and a fill from text.
// Above it: the words of the commands, run and the demo. Below it: the archive, which decides, records as text, files, and how the console speaks.
#![tactic(auto)]

mod farms;
mod filled;
mod sheets;

pub use farms::{archive, farm};
pub use filled::{bench_of, made, records};
pub use sheets::read;

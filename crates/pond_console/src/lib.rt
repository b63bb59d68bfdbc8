// The console of the runner: all words for people. Each command is a function on words that answers in one short block, and with how it went.
// Above it: the program `pond`. Below it: segments, their verdicts and their turning, and the bench, which decide what happens to a bench or to a segment.
//
// The last line of a command that was refused begins with `refused`, of one whose session has faulted with `fault`, and of
// one that could not be followed, as where a file cannot be read, with `cannot`; no other line begins so.
#![tactic(auto)]

mod input;

pub use input::script;
pub use pond_alone::arguments;
pub use pond_typed::arg_count;

// The lines of standard input, one at a time: a line read as a command on the tape, and what follows from how it went.
// Above it: the console, which follows the command. Below it: what is typed, and the words of the commands. No bench is here.
#![tactic(auto)]

pub mod heard;
pub mod stops;

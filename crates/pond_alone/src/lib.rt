// The commands that need no bench of the console's: those on segment files, `run` and `demo` with a bench of their own, and those on the console itself.
// Above it: the console. Below it: a function for each command, and the words of the commands.
#![tactic(auto)]

mod commands;
mod shell;

pub use commands::follow;
pub use shell::arguments;

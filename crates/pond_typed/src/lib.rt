// What is typed: the lines of standard input and the program's arguments, cut into the words of a command on its tape; and the page of help.
// Above it: the console. Below it: rows of bytes, and how the console speaks.
#![tactic(auto)]

mod cuts;
mod helps;
mod reads;
mod shell;

pub use cuts::{Miscut, is_command, words_of, wrong};
pub use helps::{help, welcome};
pub use reads::{Line, read_line};
pub use shell::{arg_count, arguments};

// Rows of bytes: what the console keeps by number, the words of a command on its tape, and in its book the names of sessions and slots, the
// files of the slots, and what the sessions were opened for. A row has as many bytes as the longest word.
// Above it: the console's commands. Below it: `text`. Every function takes any rows and any numbers.
#![tactic(auto)]

mod kept;
mod names;
mod views;

pub use kept::{Bytes, empty, put, row};
pub use names::{
    book, file_of, file_row, find, session_name, session_row, slot_name, slot_row, tape, view_row,
};
pub use views::{View, put_view, view_of};

// Bytes that are typed and shown: words of a line, parts and joins, what is seen of a name, many texts in one. Each function but those on texts in
// one is proved to be its definition.
// Above it: the console, which reads and prints. Below it: nothing.
#![tactic(auto)]

mod pieces;
mod shown;
mod slices;
mod words;

pub use pieces::{cut, line, piece};
pub use shown::visible;
pub use slices::{front, joined, same};
pub use words::{blank, word};

// What a session sees of the shared words: its window, which stands in its record, and for whom it was opened, which stands in the book; why an archive is
// refused; and why it cannot be filled now.
// Above it: what is told of a fault, and the commands that open sessions, show them and fill the archive. Below it: the archive, the bench's numbers, and the book.
#![tactic(auto)]

mod holds;
mod lines;
mod refusals;
mod windows;

pub use holds::held;
pub use lines::{opened, shown};
pub use refusals::refused;
pub use windows::{Seen, seen_by};

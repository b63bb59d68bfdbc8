// What can be seen of a bench, and changes nothing: words, the map, how deep a stack went, what is told of a refusal, and the phrases for them.
// Above it: what is told of a fault, and the commands that change a bench. Below it: the bench's numbers, and how the console speaks.
#![tactic(auto)]

mod contents;
mod depths;
mod maps;
mod nexts;
pub mod refusals;
pub mod told;

pub use contents::{Wanted, shared, words};
pub use depths::deepest;
pub use maps::map;
pub use nexts::Next;

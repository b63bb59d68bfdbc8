// The commands that furnish a bench: a new one, its shared words from a file, and segments into its slots. Each asks one entry of the bench and says
// its answer in plain words; what is decided here is where a file is kept in the store.
// Above it: the words of the commands, run and the demo. Below it: the bench, files, and how the console speaks.
//
// A bench goes in by value and comes back. The memory is the bench's own words and no others; the store has 65,536 bytes for each slot.
#![tactic(auto)]

pub mod fills;
pub mod loads;
mod made;

pub use fills::fill;
pub use loads::{load, load_named, slots};
pub use made::new_bench;

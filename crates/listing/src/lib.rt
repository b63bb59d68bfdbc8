// A segment's instructions as lines for people: byte place, bytes, mnemonic, and in plain words what is done to what.
// Above it: the console's listings. Below it: `instruction`, which alone decides what stands at a byte, and how the console speaks.
#![tactic(auto)]

mod cases;
mod columns;
mod constants;
mod lines;
mod operands;
mod phrases;
mod routines;
mod rows;
mod table;

pub use lines::{after, line, line_with_arms};
pub use routines::{heading, listing};

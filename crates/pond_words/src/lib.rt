// The words of the commands: which command it is, and the numbers and names among its words; what is said of words that cannot be followed.
// Above it: what does the commands. Below it: the names that are kept, and how the console speaks. No bench is here.
#![tactic(auto)]

mod deeds;
mod expects;
pub mod forms;

pub use deeds::{Deed, Opening, Sight, read};
pub use expects::{Given, farm, numbers_at};
pub use forms::{Command, Form, Keep};

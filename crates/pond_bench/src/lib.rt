// The commands on the sessions of a bench: each asks one entry of the bench and says its answer in plain words. What happens to a bench is decided by
// its entries alone; what is decided here is how a long turn is cut into turns, and when it says how far it is.
// Above it: the console, which reads the words of a command. Below it: the bench, what can be seen of it, and how the console speaks.
//
// A site lends each command the bench, which the command changes there, and all that goes with it.
#![tactic(auto)]

mod sessions;
mod site;
mod turns;

pub use pond_look::{Next, Wanted, map, shared, words};
pub use site::Site;
pub use turns::stopped;

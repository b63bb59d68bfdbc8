// Whole files: one read into a buffer, and one written so that a failure leaves no half file. Both say why where they cannot.
// Above it: the commands on files. Below it: `std`; `errors` says why one failed.
#![tactic(auto)]

mod errors;
mod places;
mod reads;
mod writes;

pub use errors::{Failure, cannot};
pub use reads::{read, read_some};
pub use writes::write;

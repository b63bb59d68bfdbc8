// The bench: every entry point under one name. Each judges its refusals in document 01's order and then does its work; none asks anything of its caller.
// Nothing is proved here. Above: programs, and demands, which states every contract again. Below: a crate for each entry, and entry for what they answer.
#![tactic(auto)]

pub use entry::Out;
pub use entry_close::close;
pub use entry_load::load;
pub use entry_new::new_bench;
pub use entry_open::{open_session, open_window};
pub use entry_turn::turn;
pub use segment::Refusal;
pub use sound::{Bench, Session, Slot, Window};

// `list FILE routine K` and `list FILE near BYTE`: a part of a segment's listing.
// Above it: the console. Below it: the listing's lines, segments and their verdicts, and files.
#![tactic(auto)]

mod parts;

pub use parts::{Part, list_part};

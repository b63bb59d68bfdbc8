// Questions to the proved entry points, read as lines and answered as lines; docs/CASES.md has the format.
// Above it: the program `cases`. Below it: `cases_requests`, which asks the entry points, and `cases_lines`.
//
// Where input is not as docs/CASES.md says: a line of 65,536 bytes or more is a remark; more words or bytes than there are cannot be lent,
// and that line is ignored.
#![tactic(auto)]

mod input;
mod world;

pub use input::run;

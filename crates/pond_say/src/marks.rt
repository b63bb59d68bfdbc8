// What passes between the program and its wrapper, bin/pond, in two files that the wrapper lends: the status in one, and in the other the
// mark that Ctrl-C was pressed. Where nothing is lent, as at the gate, each call fails and nothing happens.
// Above it: the console, long turns, and what is said. Below it: `std` and `io`.
use crate::outcomes::{Outcome, status};
use std::fs;
use std::fs::OpenOptions;

// The descriptor that the wrapper lends for the status. No file that the program opens gets so high a number.
const STATUS: i32 = 9;

// The names under which the system has the two lent files. What is opened under such a name has a position of its own.
const STATUS_FILE: &str = "/proc/self/fd/9";

const CTRL_C_FILE: &str = "/proc/self/fd/8";

// Leaves the status for the wrapper, which takes the highest that it finds.
pub fn leave(o: Outcome) {
    let one = [b'0' + status(o)];
    io::write_all(STATUS, &one);
}

// Whether something was left before the end: then standard output could not be written.
pub fn lost(rt: &HostRuntime) -> bool {
    marked(rt, STATUS_FILE)
}

// Whether Ctrl-C was pressed since it was last forgotten.
pub fn interrupted(rt: &HostRuntime) -> bool {
    marked(rt, CTRL_C_FILE)
}

pub fn forget(rt: &HostRuntime) {
    if !marked(rt, CTRL_C_FILE) {
        return;
    }
    if let Ok(file) = OpenOptions::new().write(true).open(rt, CTRL_C_FILE) {
        let _ = file.set_len(0);
    }
}

// Whether the lent file has a byte. What is lent and is no file has none.
fn marked(rt: &HostRuntime, file: &str) -> bool {
    fs::metadata(rt, file).is_ok_and(|lent| lent.is_file() && lent.len() > 0)
}

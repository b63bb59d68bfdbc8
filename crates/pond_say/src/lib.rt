// How the console speaks: text, numbers, columns and the bytes of a name, all to standard output; and how a command went.
// Above it: every command. Below it: `text` and `io`. No contract can say what is written, so none here does.
#![tactic(auto)]

ghost use Rattle.std.specs.Prelude.{◌≤◌};

mod marks;
mod outcomes;

pub use marks::{forget, interrupted, leave, lost};
pub use outcomes::{Outcome, status, went};
use std::fmt;
use std::fmt::Write;
use text::front;

// The descriptor of standard output.
const STDOUT: i32 = 1;

// The last byte that is shown of a name, and of a path, which may hold letters in UTF-8.
const NAME: u8 = 126;

const PATH: u8 = 255;

// What cannot be written, as on a full disk, is a file that cannot be written: status 3.
pub fn text(bytes: &[u8]) {
    if !io::write_all(STDOUT, bytes) {
        marks::leave(Outcome::File);
    }
}

// What a format writes to: each piece of it goes out as text does.
#[derive(Clone, Copy)]
pub struct Console;

impl fmt::Write for Console {
    fn write_str(&mut self, s: &str) -> fmt::Result {
        text(s.as_bytes());
        Ok(())
    }
}

pub fn number(n: u64) {
    let mut out = Console;
    let _ = write!(out, "{n}");
}

// In hexadecimal with capital letters, as the papers print bytes, and zeros in front up to width digits, or to 16.
pub fn hex(n: u64, width: usize) {
    let mut out = Console;
    let width = width.min(16);
    let _ = write!(out, "{n:0width$X}");
}

pub fn end() {
    text(b"\n");
}

// The bytes of a segment's name, a dot for each that does not print.
pub fn name(bytes: &[u8]) {
    shown(bytes, NAME);
}

// A path, or a word or a line that was typed, a dot for each byte that would move the cursor.
pub fn path(bytes: &[u8]) {
    shown(bytes, PATH);
}

// As much as 4,096 bytes show.
fn shown(bytes: &[u8], top: u8) {
    let mut room = io::buffer();
    let n = text::visible(bytes, &mut room, top);
    text(front(&room, n));
}

// A word as a number in two's complement.
pub fn signed(w: u16) {
    let mut out = Console;
    let n = w.cast_signed();
    let _ = write!(out, "{n}");
}

// Two numbers with a dash between them, at the right end of a column, behind at most 20 blanks.
pub fn range_padded(from: u64, to: u64, width: usize) {
    padded(from, width.saturating_sub(1 + digits(to)));
    text(b"-");
    number(to);
}

// How many digits a number has.
fn digits(n: u64) -> usize
    ensures { result ≤ 20 }
{
    match n.checked_ilog10() {
        Some(power) => 1 + power as usize,
        None => 1,
    }
}

// At most 20 blanks.
pub fn blanks(n: usize) {
    text(front(b"                    ", n));
}

// A number at the right end of a column, behind at most 20 blanks; it is wider where its digits are.
pub fn padded(n: u64, width: usize) {
    let mut out = Console;
    let width = width.min(digits(n) + 20);
    let _ = write!(out, "{n:>width$}");
}

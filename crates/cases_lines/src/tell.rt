// An answer: a letter, numbers in hexadecimal without zeros in front, digests with eight digits.
// Above it: the requests. Below it: `io`. No contract can say what is written, so none here does.
use std::io::{Result, Write};

// The descriptor of standard output.
const STDOUT: i32 = 1;

// The letter is a byte of the line: nothing is decided by it. A line has at most 16 numbers and two digests, of 16 digits each, so 320 bytes hold it. What does not fit is cut off.
pub fn tell(letter: u8, numbers: &[u64], digests: &[u64]) {
    let mut line = [0u8; 320];
    let mut room = &mut line[..];
    let _ = put(&mut room, letter, numbers, digests);
    let left = room.len();
    io::write_all(STDOUT, text::front(&line, line.len().saturating_sub(left)));
}

fn put(out: &mut &mut [u8], letter: u8, numbers: &[u64], digests: &[u64]) -> Result<()> {
    out.write_all(&[letter])?;
    for n in numbers {
        write!(out, " {n:x}")?;
    }
    for d in digests {
        write!(out, " {d:08x}")?;
    }
    writeln!(out)
}

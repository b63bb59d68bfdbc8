// The first two columns of a line: the byte place, and the instruction's bytes in hexadecimal.
// Above it: the lines of a listing. Below it: how the console speaks.
// The longest instruction has five bytes.
const WIDTH: usize = 16;

pub fn place(at: usize) {
    pond_say::text(b"  byte ");
    pond_say::padded(at as u64, 5);
    pond_say::text(b": ");
}

// The bytes from at up to next.
pub fn bytes(seg: &[u8], at: usize, next: usize) {
    let part = seg.get(at..next).unwrap_or(b"");
    for &b in part {
        byte(b);
    }
    gap(part.len().saturating_mul(3), WIDTH);
}

// Blanks after so many characters, up to a column's width.
pub fn gap(used: usize, width: usize) {
    pond_say::blanks(width.saturating_sub(used));
}

// A byte in two digits, with a blank after it.
fn byte(b: u8) {
    pond_say::hex(u64::from(b), 2);
    pond_say::blanks(1);
}

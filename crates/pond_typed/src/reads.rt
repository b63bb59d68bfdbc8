// A line of standard input, byte by byte.
// Above it: the console. Below it: files.
use pond_files::{Failure, cannot};

// As much of a line as there was room for, whether it had more, and whether another line may follow.
#[derive(Clone, Copy)]
pub struct Line<'a> {
    pub kept: &'a [u8],
    pub over: bool,
    pub more: bool,
}

// The next byte, or none where the input has ended.
fn next(rt: &HostRuntime) -> Result<Option<u8>, Failure> {
    let mut one = [0u8; 1];
    let count = pond_files::read_some(&mut rt.stdin(), &mut one)?;
    Ok(one[..count].first().copied())
}

// Reads to the end of the line, and keeps as much as room holds, or nothing of a line that cannot be
// read to its end, of which it has been said. It reads byte by byte, so that nothing after the line is taken.
pub fn read_line<'a>(rt: &HostRuntime, room: &'a mut [u8]) -> Option<Line<'a>> {
    let mut n = 0;
    let mut over = false;
    for _ in 0..u64::MAX {
        match next(rt) {
            Ok(None) => {
                let kept = &room[..n];
                return Some(Line {
                    kept,
                    over,
                    more: false,
                });
            }
            Ok(Some(b'\n')) => {
                let kept = &room[..n];
                return Some(Line {
                    kept,
                    over,
                    more: true,
                });
            }
            Ok(Some(byte)) => {
                if n < room.len() {
                    room[n] = byte;
                    n += 1;
                } else {
                    over = true;
                }
            }
            Err(why) => {
                cannot(b"cannot read ", b"standard input", why);
                return None;
            }
        }
    }
    None
}

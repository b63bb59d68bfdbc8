// A whole file into a buffer, and one read of a file or of standard input.
// Above it: the commands on files, and the console's lines. Below it: `std`.
ghost use Rattle.std.specs.Prelude.{◌+◌, ◌≤◌, length, IfOk};

use crate::errors::{Failure, cannot};
use std::fs::File;
use std::io::Read;

// Reads the file into room until it ends or room is full, and answers what was read; where it cannot be read, it says why.
pub fn read<'a>(rt: &HostRuntime, path: &[u8], room: &'a mut [u8]) -> Option<&'a [u8]> {
    match opened(rt, path, room) {
        Ok(count) => Some(text::front(room, count)),
        Err(why) => {
            cannot(b"cannot read ", path, why);
            None
        }
    }
}

fn opened(rt: &HostRuntime, path: &[u8], room: &mut [u8]) -> Result<usize, Failure> {
    let mut file = File::open(rt, name(path))?;
    read_all(&mut file, room)
}

// A path as the system takes it. Where it is not in UTF-8 it becomes a name that no file can have, so that every call on it fails.
pub fn name(path: &[u8]) -> &str {
    str::from_utf8(path).unwrap_or("\0")
}

// A file that fails after its first byte was read is no file that was read.
fn read_all(file: &mut File, room: &mut [u8]) -> Result<usize, Failure>
    ensures { IfOk result (λ count. count ≤ length room.old) }
{
    let mut at = 0;
    while at < room.len() {
        let n = read_from(file, room, at)?;
        if n == 0 {
            break;
        }
        at += n;
    }
    Ok(at)
}

// One read, into room from index at on.
fn read_from(file: &mut File, room: &mut [u8], at: usize) -> Result<usize, Failure>
    requires { at ≤ length room.old }
    ensures { IfOk result (λ count. at + count ≤ length room.old) }
{
    read_some(file, &mut room[at..])
}

// One read. It answers 0 where the file ends.
pub fn read_some<R: Read>(from: &mut R, part: &mut [u8]) -> Result<usize, Failure>
    ensures { IfOk result (λ count. count ≤ length part.old) }
{
    Ok(from.read(part)?)
}

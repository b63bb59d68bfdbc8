// The lines of standard input, until it ends. It is read in large pieces; a line that a piece cuts is kept for the next.
// Above it: the program. Below it: the world, which follows a line.
ghost use Rattle.std.specs.Prelude.{◌≤◌, length};

use crate::world::World;
use std::io::Read;
use text::front;

// An array's length is part of its type: no caller has to count a million words.
pub fn run(rt: &HostRuntime, memory: &mut [u16; 1048580], store: &mut [u8; 262144]) {
    let mut room = io::large_buffer();
    pieces(rt, &mut World::new(memory, store), &mut room);
}

// A proved loop has to end, and nothing says that the input does: so it is counted, to a number that no run uses up. What stands
// in room after the last piece is a line without an end. A line that fills room is too long: it becomes a remark.
fn pieces(rt: &HostRuntime, w: &mut World, room: &mut [u8]) {
    let mut have = 0;
    for _ in 0..u64::MAX {
        let n = more(rt, room, have);
        if n == have {
            break;
        }
        let used = last_end(front(room, n));
        if used == 0 && n == room.len() {
            if let Some(first) = room.first_mut() {
                *first = b'#';
            }
            have = 1;
        } else {
            w.lines(front(room, used));
            room.copy_within(used..n, 0);
            have = n - used;
        }
    }
    w.line(front(room, have));
}

// One read, after the first have bytes of room. Answers how many stand there now: no more where the input ends or cannot be read.
fn more(rt: &HostRuntime, room: &mut [u8], have: usize) -> usize
    ensures { result ≤ length room.old }
{
    let at = have.min(room.len());
    at + read_some(rt, &mut room[at..])
}

fn read_some(rt: &HostRuntime, part: &mut [u8]) -> usize
    ensures { result ≤ length part.old }
{
    rt.stdin().read(part).unwrap_or(0)
}

// Where the bytes after the last line's end begin.
fn last_end(bytes: &[u8]) -> usize
    ensures { result ≤ length bytes.now }
{
    match bytes.iter().rposition(|b| *b == b'\n') {
        Some(i) => i + 1,
        None => 0,
    }
}

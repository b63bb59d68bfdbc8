// The program's arguments as the words of one command. An argument is one word, whatever bytes it holds.
// Above it: the console. Below it: the tape and `std`.
use crate::cuts::Miscut;
use pond_rows::Bytes;
use pond_say::Console;
use std::env::FillError;
use std::fmt::Write;
use std::rt::Env;
use text::front;

// The arguments onto the tape, but for the program's own name. The count is that of all that are given.
pub fn arguments(rt: &HostRuntime, tape: &mut [Bytes]) -> Result<usize, Miscut> {
    let all = arg_count(rt);
    let mut worst = None;
    for k in 1..9 {
        worst = worst.max(argument(rt, tape, k, all).err());
    }
    match worst {
        Some(why) => Err(why),
        None => Ok(all.saturating_sub(1)),
    }
}

// How many arguments the program was started with, its own name among them.
pub fn arg_count(rt: &HostRuntime) -> usize {
    let mut none = [0u8; 0];
    for k in 0..usize::MAX {
        if let Err(FillError::NotPresent) = rt.arg(k, &mut none) {
            return k;
        }
    }
    usize::MAX
}

// Argument k of all, where it is given, onto the tape.
fn argument(rt: &HostRuntime, tape: &mut [Bytes], k: usize, all: usize) -> Result<(), Miscut> {
    if all <= k {
        return Ok(());
    }
    let mut room = io::buffer();
    let n = match rt.arg(k, &mut room) {
        Ok(n) => n,
        Err(FillError::TooLong) => return Err(too_long(k)),
        Err(FillError::NotPresent) => 0,
    };
    pond_rows::put(tape, k.saturating_sub(1), front(&room, n));
    if n == 0 { Err(Miscut::Hollow) } else { Ok(()) }
}

fn too_long(k: usize) -> Miscut {
    let mut out = Console;
    let _ = writeln!(
        out,
        "cannot follow that: word {k} is longer than 4096 bytes"
    );
    Miscut::TooLong
}

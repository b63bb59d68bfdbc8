// The listing of a segment: each routine's heading and the instructions from its first byte on.
// Above it: the console's listings. Below it: the lines, and where a routine's code ends.
ghost use Rattle.std.specs.Prelude.{◌<◌};

use crate::{cases, lines};
use segment::Routine;

// For a segment that was accepted. Of other bytes it lists what their header says, and ends too.
pub fn listing(seg: &[u8]) {
    for k in 1..=segment::head(seg).count {
        if k > 1 {
            pond_say::end();
        }
        routine(seg, k);
    }
}

fn routine(seg: &[u8], k: u16) {
    let r = segment::routine_of(seg, k);
    heading(k, r);
    if r.entry == 0 {
        return;
    }
    let start = r.start as usize;
    let end = spans::code_end(seg, start);
    code(seg, start, end, usize::from(r.exitic));
}

// A routine's number, and where it stands. One that is declared and not linked has no code.
pub fn heading(k: u16, r: Routine) {
    pond_say::text(b"routine ");
    pond_say::number(u64::from(k));
    if r.entry == 0 {
        pond_say::text(b": declared, not linked\n");
        return;
    }
    pond_say::text(b": first byte ");
    pond_say::number(u64::from(r.start));
    pond_say::text(b", DATASIZE ");
    pond_say::number(u64::from(r.datasize));
    pond_say::text(b", EXITIC ");
    pond_say::number(u64::from(r.exitic));
    pond_say::end();
}

fn code(seg: &[u8], start: usize, end: usize, exitic: usize) {
    let mut at = start;
    let mut met = false;
    while at < end {
        if at == exitic {
            met = true;
        }
        at = marked(seg, at, end, exitic);
    }
    if !met {
        unmet(start < end);
    }
}

// Why no line has the mark of EXITIC.
fn unmet(code: bool) {
    if code {
        pond_say::text(b"  no line of this routine begins at its EXITIC\n");
    } else {
        pond_say::text(b"  no code stands there\n");
    }
}

// A line, with a mark where it stands at EXITIC, and the targets of a case jump behind it.
fn marked(seg: &[u8], at: usize, end: usize, exitic: usize) -> usize
    ensures { at < end → at < result }
{
    let next = lines::row(seg, at);
    if at == exitic {
        pond_say::text(b"  <- EXITIC");
    }
    pond_say::end();
    cases::arms(seg, at);
    spans::forward(end, at, next)
}

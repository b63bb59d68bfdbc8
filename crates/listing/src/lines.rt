// One line of a listing: the instruction at a byte.
// Above it: whole listings, and what is told of a fault. Below it: `instruction` and the columns.
ghost use Rattle.std.specs.Prelude.{◌<◌, length};

use crate::table::Entry;
use crate::{cases, columns, operands};
use instruction::Instruction;
use spans::{NAT, NAT_INFO};

// The mnemonic's column.
const WIDTH: usize = 10;

// Prints the line and answers the byte after the instruction, which is above `at` where that is a byte of the segment.
pub fn line(seg: &[u8], at: usize) -> usize
    ensures { at < length seg.now → at < result }
{
    let next = row(seg, at);
    pond_say::end();
    spans::forward(seg.len(), at, next)
}

// The same, and behind the line of a case jump a line for each of its targets.
pub fn line_with_arms(seg: &[u8], at: usize) -> usize
    ensures { at < length seg.now → at < result }
{
    let next = line(seg, at);
    cases::arms(seg, at);
    next
}

// The line without its end, and the byte where the next line begins.
pub fn row(seg: &[u8], at: usize) -> usize {
    columns::place(at);
    if seg.len() <= at {
        pond_say::text(b"past the end of the segment");
        return at;
    }
    let i = instruction::read(seg, at);
    columns::bytes(seg, at, i.next);
    described(seg, i);
    spans::line_after(seg.len(), i.first, i.x, i.next)
}

// The byte where the line after that of a byte begins, and nothing is printed.
pub fn after(seg: &[u8], at: usize) -> usize {
    if seg.len() <= at {
        return at;
    }
    let i = instruction::read(seg, at);
    spans::line_after(seg.len(), i.first, i.x, i.next)
}

fn described(seg: &[u8], i: Instruction) {
    let entry = Entry::of(i.first);
    columns::gap(entry.name(), WIDTH);
    if !i.carried {
        other(entry, i);
    } else if !i.whole {
        pond_say::text(b"cut off by the end of the segment");
    } else if over(i.first, i.x) {
        pond_say::text(b"not carried: more than 127 links");
    } else {
        entry.meaning(seg, i);
    }
}

// A first byte that is not carried. One without a mnemonic is no instruction.
fn other(entry: Entry, i: Instruction) {
    if entry.is_unused() {
        pond_say::text(b"no instruction");
        return;
    }
    pond_say::text(b"not carried");
    if i.first == NAT {
        pond_say::text(b": native code from here on, which is not listed");
    } else if !i.whole {
        pond_say::text(b", and cut off by the end of the segment");
    } else if i.first == NAT_INFO {
        pond_say::text(b": ");
        operands::bytes(i.x);
        pond_say::text(b" of native code information behind it, passed over");
    }
}

// Whether the first operand is a DB above 127: those of LDA, LOD, CPI and STR.
fn over(first: u8, x: u16) -> bool {
    matches!(first, 136 | 137 | 146 | 166) && x > 127
}

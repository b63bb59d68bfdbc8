// Sentences of jumps, calls, links and returns: faults 7, 8 and 9.
// Above it: `said`. Below it: how a sentence is said.
use crate::said::{end, sentence};
use cause::{BadLink, Flow, Numbers, less};

pub fn flow(n: Numbers, f: Flow) {
    match f {
        Flow::Target(t) => outside(n, b"the jump leads to byte #", &[t]),
        Flow::Before(k) => outside(n, b"the jump leads to byte -#", &[k]),
        Flow::Case(i, t) => outside(
            n,
            b"for index ~ the case table leads to byte #",
            &[usize::from(i), t],
        ),
        Flow::CaseBefore(i, k) => outside(
            n,
            b"for index ~ the case table leads to byte -#",
            &[usize::from(i), k],
        ),
        Flow::Routine(k) => sentence(
            b"it calls routine #, and the segment has routines 1 to #",
            &[usize::from(k), usize::from(n.count)],
        ),
        Flow::Unlinked(k) => sentence(
            b"it calls routine #, which the report declares and which was never linked in",
            &[usize::from(k)],
        ),
        Flow::Link(bad) => link(n, bad),
        Flow::Dynamic(value) => mark(n, b"MSDYN", 1, value, 1, last_record(n)),
        Flow::Caller(value) => mark(n, b"MSPROC", 4, value, 1, end(1, usize::from(n.count))),
        Flow::Segment(value) => mark(n, b"MSENDV", 3, value, 1, 0),
        Flow::Resume(value) => mark(n, b"MSIPC", 2, value, 22, usize::from(n.code)),
        Flow::Back(sp, b) => back(n, sp, b),
    }
}

// A jump that leads out of the code.
fn outside(n: Numbers, leads: &[u8], numbers: &[usize]) {
    sentence(leads, numbers);
    sentence(
        b", and the code is bytes 22 to #",
        &[less(usize::from(n.code), 1)],
    );
}

// The record at word 1 is the outermost, and its link is 0 from the start.
fn link(n: Numbers, bad: BadLink) {
    let (of, at, value) = (
        usize::from(bad.of),
        usize::from(bad.at),
        usize::from(bad.value),
    );
    let nth = less(of + 1, usize::from(bad.left));
    sentence(
        b"static link # of #, at word #, holds #, and must be 1_",
        &[nth, of, at, value, last_record(n)],
    );
    if at + value == 1 {
        pond_say::text(b"; the globals' record has no link to follow");
    } else {
        pond_say::text(b"; the report has probably overwritten its own link");
    }
}

// A word of the mark, the value that it may hold, and the end of the range where it may hold more.
fn mark(n: Numbers, name: &[u8], at: u16, value: u16, first: usize, end: usize) {
    let m = usize::from(n.m);
    sentence(b"in the mark at word # ", &[m]);
    pond_say::text(name);
    sentence(
        b", at word #, holds #, and must be #_; the report has probably overwritten its own mark",
        &[m + usize::from(at), usize::from(value), first, end],
    );
}

// Where the last record can begin, as the end of a range that begins at word 1.
fn last_record(n: Numbers) -> usize {
    end(1, less(usize::from(n.len), 5))
}

fn back(n: Numbers, sp: usize, b: u16) {
    let floor = n.floor as usize;
    sentence(
        b"the return drops the mark at word # and # words more, so SP would be word #, and must be #_; \
          an earlier mark was overwritten, or the code drops the wrong number of words",
        &[
            usize::from(n.m),
            usize::from(b),
            sp,
            floor,
            end(floor, usize::from(n.len)),
        ],
    );
}

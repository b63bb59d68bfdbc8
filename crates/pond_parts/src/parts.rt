// `list FILE routine K` and `list FILE near BYTE`: a part of a segment's listing.
// Above it: the words of the commands. Below it: the listing's lines, and the verdict on a segment.
use pond_say::{Console, Outcome};
use segment::{Routine, Segment};
use std::fmt::Write;
use std::ops::Range;

// How many instructions stand before and behind a byte that is asked for.
const BEFORE: usize = 6;

const BEHIND: usize = 6;

// What is asked for: a routine, or a byte.
#[derive(Clone, Copy)]
pub enum Part {
    Routine(u64),
    Near(u64),
}

pub fn list_part(rt: &HostRuntime, file: &[u8], part: Part) -> Outcome {
    let mut room = io::large_buffer();
    let Some(seg) = pond_files::read(rt, file, &mut room) else {
        return Outcome::File;
    };
    judged(seg, part)
}

fn judged(seg: &[u8], part: Part) -> Outcome {
    let v = checks::judge(seg);
    match v {
        Ok(()) => listed(seg, part),
        Err(refusal) => pond_rules::refused(refusal),
    }
}

fn listed(seg: &[u8], part: Part) -> Outcome {
    match part {
        Part::Routine(k) => routine(seg, k),
        Part::Near(byte) => near(seg, byte as usize),
    }
}

fn routine(seg: &[u8], k: u64) -> Outcome {
    let h = segment::head(seg);
    match u16::try_from(k) {
        Ok(k) if 0 < k && k <= h.count => {
            code_of(seg, k);
            Outcome::Done
        }
        _ => no_routine(h),
    }
}

fn code_of(seg: &[u8], k: u16) {
    let r = segment::routine_of(seg, k);
    let start = r.start as usize;
    listing::heading(k, r);
    if r.entry != 0 {
        lines(seg, start..until(seg, start), 0..usize::MAX);
    }
}

fn no_routine(h: Segment) -> Outcome {
    let mut out = Console;
    let _ = writeln!(
        out,
        "cannot list that: the segment has routines 1 to {}",
        h.count
    );
    Outcome::Typing
}

// The byte where a routine's code ends that begins at start: where the words before the next routine's code begin, or the dictionary, or the pool, or the segment ends.
fn until(seg: &[u8], start: usize) -> usize {
    let h = segment::head(seg);
    let dict = sooner(start, 2 * usize::from(h.dict), seg.len());
    let mut end = sooner(start, 2 * usize::from(h.pool), dict);
    for k in 1..=h.count {
        end = before_code(segment::routine_of(seg, k), start, end);
    }
    end
}

fn before_code(r: Routine, start: usize, end: usize) -> usize {
    let first = r.start as usize;
    if first < 4 {
        return end;
    }
    sooner(start, first - 4, end)
}

// The place, where it lies behind start and before end, or end.
fn sooner(start: usize, place: usize, end: usize) -> usize {
    if start < place { place.min(end) } else { end }
}

// Some instructions of a routine before and behind the one that a byte is part of.
fn near(seg: &[u8], byte: usize) -> Outcome {
    let start = begin(seg, byte);
    let end = until(seg, start);
    if start == 0 || end <= byte {
        pond_say::text(b"cannot list that: the byte is part of no routine's code\n");
        return Outcome::Typing;
    }
    let n = passed(seg, start, byte);
    lines(
        seg,
        start..end,
        n.saturating_sub(BEFORE)..n.saturating_add(1 + BEHIND),
    );
    Outcome::Done
}

// The first byte of the routine whose code begins last at or before a byte, or 0.
fn begin(seg: &[u8], byte: usize) -> usize {
    let h = segment::head(seg);
    let mut found: usize = 0;
    for k in 1..=h.count {
        let r = segment::routine_of(seg, k);
        let first = r.start as usize;
        if first <= byte {
            found = found.max(first);
        }
    }
    found
}

// How many instructions from start on end at or before a byte.
fn passed(seg: &[u8], start: usize, byte: usize) -> usize {
    let mut at = start;
    let mut n: usize = 0;
    while at < byte {
        let next = listing::after(seg, at);
        if next <= at || byte < next {
            break;
        }
        at = next;
        n = n.saturating_add(1);
    }
    n
}

// The lines of some instructions of a code, by their numbers from its first on.
fn lines(seg: &[u8], code: Range<usize>, shown: Range<usize>) {
    let mut at = code.start;
    let mut k: usize = 0;
    while at < code.end && k < shown.end {
        let next = if shown.start <= k {
            listing::line_with_arms(seg, at)
        } else {
            listing::after(seg, at)
        };
        if next <= at {
            break;
        }
        at = next;
        k = k.saturating_add(1);
    }
}

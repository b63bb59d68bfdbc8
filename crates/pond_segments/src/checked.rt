// `check FILE`: the header numbers and routines of a segment, or why it is refused.
// Above it: the console. Below it: `segment`, which judges, and how the console speaks.
use pond_say::{Console, Outcome};
use segment::Segment;
use std::fmt::Write;

// A segment has at most 32,767 words.
const LONGEST: usize = 65534;

pub fn check(rt: &HostRuntime, file: &[u8]) -> Outcome {
    let mut room = io::large_buffer();
    let Some(seg) = pond_files::read(rt, file, &mut room) else {
        return Outcome::File;
    };
    report(file, seg)
}

fn report(file: &[u8], seg: &[u8]) -> Outcome {
    size(file, seg.len());
    let v = checks::judge(seg);
    match v {
        Ok(()) => passed(seg),
        Err(refusal) => pond_rules::refused(refusal),
    }
}

// The first line of an answer: the file, its bytes and its words.
pub fn size(file: &[u8], bytes: usize) {
    pond_say::text(b"file ");
    pond_say::path(file);
    if bytes > LONGEST {
        pond_say::text(b": more than 65534 bytes, longer than any segment\n");
    } else if bytes == 1 {
        pond_say::text(b": 1 byte\n");
    } else {
        measure(bytes);
    }
}

fn measure(bytes: usize) {
    let mut out = Console;
    let half = if bytes % 2 == 0 { "" } else { " and a half" };
    let _ = writeln!(out, ": {bytes} bytes, {} words{half}", bytes / 2);
}

fn passed(seg: &[u8]) -> Outcome {
    let h = segment::head(seg);
    name(seg);
    header(h);
    table(seg, h.count);
    Outcome::Done
}

fn name(seg: &[u8]) {
    if 12 <= seg.len() {
        pond_say::text(b"  name                \"");
        pond_say::name(&seg[4..12]);
        pond_say::text(b"\"\n");
    }
}

fn header(h: Segment) {
    pond_say::text(b"  byte sex            ");
    sex(h.least);
    field("dictionary pointer", h.dict);
    field("relocation pointer", h.reloc);
    field("pool pointer", h.pool);
    pools(h);
    field("real size", h.real);
    field("routines", h.count);
}

// The words of the constant pool, which ends with the segment, and of the real pool at its end.
fn pools(h: Segment) {
    if h.pool == 0 {
        pond_say::text(b"  constant pool       none\n");
        return;
    }
    words("constant pool", usize::from(h.pool), h.words);
    if h.reals < h.words {
        words("real pool", h.reals, h.words);
    } else {
        pond_say::text(b"  real pool           none\n");
    }
}

// The words from one on and before another, at least one.
fn words(label: &str, first: usize, end: usize) {
    let mut out = Console;
    let last = end.saturating_sub(1);
    if first < last {
        let _ = writeln!(out, "  {label:<20}words {first} to {last}");
    } else {
        let _ = writeln!(out, "  {label:<20}word {last}");
    }
}

// The byte sex in words.
pub fn sex(least: bool) {
    if least {
        pond_say::text(b"least byte first\n");
    } else {
        pond_say::text(b"most byte first\n");
    }
}

fn field(label: &str, n: u16) {
    let mut out = Console;
    let _ = writeln!(out, "  {label:<20}{n}");
}

fn table(seg: &[u8], count: u16) {
    pond_say::text(b"  routine  entry word  first byte  DATASIZE  EXITIC\n");
    for k in 1..=count {
        row(seg, k);
    }
}

fn row(seg: &[u8], k: u16) {
    let mut out = Console;
    let r = segment::routine_of(seg, k);
    if r.entry == 0 {
        let _ = writeln!(out, "{k:>9}  declared, not linked");
        return;
    }
    let _ = writeln!(
        out,
        "{k:>9}{:>12}{:>12}{:>10}{:>8}",
        r.entry, r.start, r.datasize, r.exitic
    );
}

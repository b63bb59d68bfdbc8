// `turn FILE OUT`: a segment with the other byte sex.
// Above it: the console. Below it: `turning`, which turns or refuses, and how the console speaks.
use crate::checked;
use pond_say::{Console, Outcome};
use std::fmt::Write;
use text::front;

pub fn turn(rt: &HostRuntime, file: &[u8], out: &[u8]) -> Outcome {
    let mut room = io::large_buffer();
    let Some(seg) = pond_files::read(rt, file, &mut room) else {
        return Outcome::File;
    };
    turned(rt, file, seg, out)
}

fn turned(rt: &HostRuntime, file: &[u8], seg: &[u8], out: &[u8]) -> Outcome {
    let mut room = io::large_buffer();
    let v = turning::turn(seg, &mut room);
    match v {
        Ok(()) => written(rt, front(&room, seg.len()), out),
        Err(refusal) => {
            checked::size(file, seg.len());
            pond_rules::refused(refusal)
        }
    }
}

fn written(rt: &HostRuntime, seg: &[u8], out: &[u8]) -> Outcome {
    if !pond_files::write(rt, out, seg) {
        return Outcome::File;
    }
    let h = segment::head(seg);
    told(out, seg.len(), h.least);
    Outcome::Done
}

fn told(out: &[u8], bytes: usize, least: bool) {
    pond_say::text(b"written ");
    pond_say::path(out);
    let mut console = Console;
    let _ = write!(console, ": {bytes} bytes, ");
    checked::sex(least);
}

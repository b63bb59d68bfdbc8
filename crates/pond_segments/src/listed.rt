// `list FILE`: the instructions of a segment, routine by routine, or why it is refused.
// Above it: the console. Below it: the listing, and the verdict on a segment.
use crate::checked;
use pond_say::Outcome;

pub fn list(rt: &HostRuntime, file: &[u8]) -> Outcome {
    let mut room = io::large_buffer();
    let Some(seg) = pond_files::read(rt, file, &mut room) else {
        return Outcome::File;
    };
    listed(file, seg)
}

fn listed(file: &[u8], seg: &[u8]) -> Outcome {
    let v = checks::judge(seg);
    match v {
        Ok(()) => {
            listing::listing(seg);
            Outcome::Done
        }
        Err(refusal) => {
            checked::size(file, seg.len());
            pond_rules::refused(refusal)
        }
    }
}

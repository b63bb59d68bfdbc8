// Where a session stands: its next instruction, and the calls that led to it, the last one first.
// Above it: show. Below it: the listing, and the marks in the session's words.
use machine::Kind;
use plan::Regs;
use pond_bench::Site;
use pond_look::told;
use pond_phrases::say;

// The most calls that are shown.
const MOST: u8 = 30;

// A routine that was called, and its record.
#[derive(Clone, Copy)]
struct Call {
    m: usize,
    routine: usize,
}

// Of a session that is finished nothing is told; of one that has faulted, only its calls.
pub fn closer(site: &Site, session: u64) {
    let se = told::record(site.bench, session as usize);
    let regs = se.cpu.regs;
    let region = told::region(site.memory, se.base, se.len);
    match se.cpu.kind {
        Kind::Ready => {
            pond_say::text(b"next instruction:\n");
            listing::line(told::code(site.bench, site.store, se.slot), regs.counter);
            calls(region, regs);
        }
        Kind::Faulted(_, _) => calls(region, regs),
        Kind::Finished => {}
    }
}

fn calls(region: &[u16], regs: Regs) {
    pond_say::text(b"calls, the last one first:\n");
    let mut call = Call {
        m: regs.m,
        routine: regs.routine,
    };
    for _ in 0..MOST {
        let Some(before) = call.told(region) else {
            return
        };
        call = before;
    }
    pond_say::text(b"  and more\n");
}

impl Call {
    // Tells of it, and answers the one whose routine called. A mark is MSSTAT, MSDYN, MSIPC, MSENDV and MSPROC, from the record's word on.
    fn told(self, region: &[u16]) -> Option<Call> {
        say(
            b"  routine #, record at word #",
            &[self.routine as u64, self.m as u64],
        );
        if self.m < 2 {
            pond_say::text(b": the first\n");
            return None;
        }
        let mark = |k: usize| usize::from(word(region, told::past(self.m, k)));
        let (m, byte, routine) = (mark(1), mark(2), mark(4));
        say(
            b", returns to byte # of routine #\n",
            &[byte as u64, routine as u64],
        );
        if m == 0 {
            return None;
        }
        Some(Call { m, routine })
    }
}

// A word of the session, or 0 where it has no such word.
fn word(region: &[u16], at: usize) -> u16 {
    region.get(at).copied().unwrap_or(0)
}

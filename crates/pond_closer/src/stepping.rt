// `step SESSION [N]`: each instruction as it is done, with the top of the stack before and after it.
// Above it: the words of the commands. Below it: the bench, one step at a time.
use bench::Refusal;
use machine::Kind;
use pond_bench::Site;
use pond_look::{refusals, told};
use pond_say::Outcome;
use pond_why::faults;
use sound::Session;

// How many words of the stack are shown.
const SHOWN: usize = 3;

pub fn step(site: &mut Site, rt: &HostRuntime, session: u64, steps: u64) -> Outcome {
    let i = session as usize;
    let se = told::record(site.bench, i);
    if !se.used {
        return refusals::of_session(Refusal::NotThere, session);
    }
    for _ in 0..steps {
        if !one(site, i) || pond_say::interrupted(rt) {
            break;
        }
    }
    pond_bench::stopped(rt, ended(site, i))
}

// How the session stands then, and the reason of a fault.
fn ended(site: &Site, i: usize) -> Outcome {
    let se = told::record(site.bench, i);
    told::session(site.book, i);
    pond_say::text(b": ");
    told::standing(se.cpu.kind);
    pond_say::end();
    let seen = pond_windows::seen_by(site.book, se, i);
    faults::reason(site.bench, site.memory, site.store, se, seen)
}

// The instruction's line and the top of the stack, then the step, and the top of the stack behind it; answers whether a step was done.
fn one(site: &mut Site, i: usize) -> bool {
    let se = told::record(site.bench, i);
    let Kind::Ready = se.cpu.kind else {
        return false
    };
    listing::line(
        told::code(site.bench, site.store, se.slot),
        se.cpu.regs.counter,
    );
    pond_say::text(b"    stack, top first: ");
    top(site.memory, se);
    // a site's own turn of so many steps is no public function
    let out = bench::turn(site.bench, site.memory, site.store, i, 1);
    site.bench = out.bench;
    pond_say::text(b" -> ");
    let after = told::record(site.bench, i);
    top(site.memory, after);
    pond_say::end();
    match out.answer {
        Ok(n) => n > 0,
        Err(_) => false,
    }
}

// Up to three words from SP on, and how many more there are.
fn top(memory: &[u16], se: Session) {
    let region = told::region(memory, se.base, se.len);
    let stack = region.get(se.cpu.regs.sp..).unwrap_or(&[]);
    if stack.len() == 0 {
        pond_say::text(b"empty");
    }
    for (k, w) in stack.iter().take(SHOWN).enumerate() {
        if k > 0 {
            pond_say::text(b" ");
        }
        pond_say::signed(*w);
    }
    if SHOWN < stack.len() {
        pond_phrases::say(b" and # more", &[(stack.len() - SHOWN) as u64]);
    }
}

// What follows from how a line went: whether a script stops, and what is said of it.
// Above it: the console's loop over lines. Below it: how the console speaks.
use pond_say::{Console, Outcome};
use pond_words::Keep;
use std::fmt::Write;

// How the line went for a script, and whether another line may follow.
#[derive(Clone, Copy)]
pub struct Went {
    pub outcome: Outcome,
    pub more: bool,
}

// A person is never stopped, but where nothing can be shown any more. The line has this number.
pub fn settled(
    rt: &HostRuntime,
    outcome: Outcome,
    typed: bool,
    keep: Keep,
    line: u64,
    more: bool,
) -> Went {
    let goes_on = more && !pond_say::lost(rt);
    if typed {
        return Went {
            outcome: Outcome::Done,
            more: goes_on,
        };
    }
    let outcome = seen(rt, outcome);
    let stops = stops_at(outcome, keep);
    if stops {
        stopped(line, outcome);
    }
    Went {
        outcome,
        more: goes_on && !stops,
    }
}

// Ctrl-C stops a script, whatever the line did.
fn seen(rt: &HostRuntime, o: Outcome) -> Outcome {
    if pond_say::interrupted(rt) {
        return Outcome::Outside;
    }
    o
}

fn stops_at(o: Outcome, keep: Keep) -> bool {
    match o {
        Outcome::Done => false,
        Outcome::Fault => keep == Keep::Nothing,
        Outcome::Outside => true,
        Outcome::Refused | Outcome::Typing | Outcome::File => keep != Keep::Failures,
    }
}

// `stopped at line 3 with status 2: no line after it was followed`
fn stopped(line: u64, o: Outcome) {
    let mut out = Console;
    let status = pond_say::status(o);
    let _ = writeln!(
        out,
        "stopped at line {line} with status {status}: no line after it was followed"
    );
}

// `turn SESSION STEPS`: as many turns of the bench as the steps take, and how the session stands then.
// Above it: the console. Below it: the bench, and what is told of a fault.
ghost use Rattle.std.specs.Prelude.{◌-◌, ◌≤◌};

use crate::site::Site;
use machine::Kind;
use pond_look::{refusals, told};
use pond_say::Outcome;

// The most steps of one turn, and how often a long run says how far it is.
const TURN: u64 = 65535;

const MILESTONE: u64 = 100000000;

impl Site<'_> {
    // A turn of no steps is refused where any turn is.
    pub fn turn(&mut self, rt: &HostRuntime, session: u64, steps: u64) -> Outcome {
        let i = session as usize;
        let out = bench::turn(self.bench, self.memory, self.store, i, 0);
        match out.answer {
            Ok(_) => {
                let done = self.turns(rt, i, steps);
                self.ended(i, done);
                self.instruction(i);
                stopped(rt, self.reason(i))
            }
            Err(refusal) => refusals::of_session(refusal, session),
        }
    }

    // Turns, one after another, until the steps are done or the session does none; answers how many steps they were.
    pub fn turns(&mut self, rt: &HostRuntime, i: usize, steps: u64) -> u64 {
        let mut left = steps;
        let mut done: u64 = 0;
        while left > 0 {
            let n = self.one_turn(i, share(left, done));
            left = rest(rt, left, n);
            // it stays the largest number where it would be larger
            done = done.saturating_add(n);
            if n > 0 && done % MILESTONE == 0 {
                pond_phrases::say(b"  # steps so far\n", &[done]);
            }
        }
        done
    }

    // A turn of so many steps at most, and how many it did: none where it is refused.
    fn one_turn(&mut self, i: usize, steps: u64) -> u64 {
        let out = bench::turn(self.bench, self.memory, self.store, i, steps);
        self.bench = out.bench;
        match out.answer {
            Ok(n) => n as u64,
            Err(_) => 0,
        }
    }

    // `session 0 north: 37 steps, ready`
    pub fn ended(&self, i: usize, steps: u64) {
        told::session(self.book, i);
        pond_phrases::say(b": # step%, ", &[steps, steps]);
        let kind = self.session(i).cpu.kind;
        if let Kind::Faulted(_, _) = kind {
            pond_say::text(b"then ");
        }
        told::standing(kind);
        pond_say::end();
    }
}

// A turn that Ctrl-C has ended says so. The mark stays for the console.
pub fn stopped(rt: &HostRuntime, o: Outcome) -> Outcome {
    if pond_say::interrupted(rt) {
        pond_say::text(b"stopped by Ctrl-C after these steps; another turn goes on from there\n");
        return Outcome::Outside;
    }
    o
}

// The steps of the next turn: no more than are left, and none past the next milestone.
fn share(left: u64, done: u64) -> u64 {
    let ahead = MILESTONE - done % MILESTONE;
    left.min(ahead).min(TURN)
}

// The steps that are left after a turn that did n: none after a turn that did none, since the session has stopped, and none after Ctrl-C.
fn rest(rt: &HostRuntime, left: u64, n: u64) -> u64
    ensures { result ≤ left - 1 }
{
    if n == 0 || left < n || pond_say::interrupted(rt) {
        return 0;
    }
    left - n
}

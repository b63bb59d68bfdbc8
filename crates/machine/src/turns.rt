// A turn: up to k steps, stopping when the session is no longer ready.
// Above: `session` and the bench; below: `steps`, and what a segment says, read once a turn.
ghost use Rattle.std.specs.Prelude.{◌≡◌, ◌-◌, ◌≤◌, length};
ghost use Rattle.pmachine.specs.State.{ready};
ghost use Rattle.pmachine.specs.Run.{is_ready};
ghost use Rattle.pmachine.specs.Sound.{Loaded, Ranged};
ghost use Rattle.plan.specs.Answer.{regs_of};
ghost use Rattle.plan.specs.Told.{Told, sex_of};
ghost use Rattle.steps.specs.Memory.{Placed, Steady};
ghost use Rattle.machine.specs.Memory.{kind_of, TurnedTo};

use crate::{Cpu, Kind, Turned};
use plan::{Facts, Regs};
use steps::{Stepped, step};

// What a segment says: sex, dictionary, number of routines, pool, real pool and 6+G.
pub fn facts_of(seg: &[u8]) -> Facts
    ensures { Told seg.now result }
{
    let head = segment::head(seg);
    Facts {
        sex: sex_number(head.least),
        dict: head.dict as usize,
        count: head.count as usize,
        pool: head.pool as usize,
        reals: head.reals,
        floor: segment::floor(seg) as usize,
    }
}

fn sex_number(least: bool) -> usize
    ensures { result ≡ sex_of least }
{
    if least { 0 } else { 1 }
}

pub fn is_ready(kind: Kind) -> bool
    ensures { result ≡ is_ready (kind_of kind) }
{
    match kind {
        Kind::Ready => true,
        Kind::Finished => false,
        Kind::Faulted(_, _) => false,
    }
}

// The steps of a ready session, counted down: one number a step is kept, and not two.
fn run(
    mem: &mut [u16],
    at: usize,
    end: usize,
    s: usize,
    seg: &[u8],
    facts: Facts,
    start: Regs,
    k: usize,
) -> Turned
    requires { Steady seg.now facts mem.old at end s start }
    ensures { TurnedTo seg.now mem.old s at end k (regs_of start) ready result mem.new }
{
    let mut now = start;
    let mut left = k;
    while 0 < left {
        match step(mem, at, end, s, seg, facts, now) {
            Stepped::Went(next) => {
                now = next;
                left -= 1;
            }
            Stepped::Stuck(n, place) => {
                return after(Kind::Faulted(n, place), now, k - left + 1);
            }
            Stepped::Ended => {
                return after(Kind::Finished, now, k - left + 1);
            }
        }
    }
    after(Kind::Ready, now, k)
}

// A session after its turn.
fn after(kind: Kind, regs: Regs, done: usize) -> Turned
    ensures { result ≡ record { cpu = record { kind = kind; regs = regs }; done = done } }
{
    Turned {
        cpu: Cpu { kind, regs },
        done,
    }
}

// A turn of k steps, or fewer where the session is no longer ready. The shared words are the first s of the memory, the region is at..end.
pub fn turn(
    mem: &mut [u16],
    at: usize,
    end: usize,
    s: usize,
    seg: &[u8],
    q: Cpu,
    k: usize,
) -> Turned
    requires placed { Placed (length mem.old) at end s }
    requires loaded { Loaded seg.now }
    requires ranged { Ranged seg.now (end - at) (regs_of q.regs) }
    ensures { TurnedTo seg.now mem.old s at end k (regs_of q.regs) (kind_of q.kind) result mem.new }
{
    let kind = q.kind;
    if is_ready(kind) {
        let regs = q.regs;
        return run(mem, at, end, s, seg, facts_of(seg), regs, k);
    }
    Turned { cpu: q, done: 0 }
}

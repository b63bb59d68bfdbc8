// One step of a ready session, on a memory that holds the shared words and the session's region: judged with reads alone, then committed.
// Above: `machine`, whose turn is many of them; below: `judge`, which only reads, `commit`, which only writes, and the place of a fault in `instruction`.
#![tactic(auto)]

ghost use Rattle.std.specs.Prelude.{◌≡◌, take};
ghost use Rattle.basis.specs.Part.{part};
ghost use Rattle.pmachine.specs.Step.{judge};
ghost use Rattle.plan.specs.Answer.{regs_of, outcome_of};
ghost use Rattle.steps.specs.Memory.{Steady, Stood};

use plan::{Facts, Planned, Regs};

// The registers after a step; a fault and its place; or the end. A fault is its number in the paper, as a session's record holds it: an enum
// of the faults made each step dearer (see `plan::Planned::Bad`).
#[derive(Clone, Copy)]
pub enum Stepped {
    Went(Regs),
    Stuck(u8, usize),
    Ended,
}

// The shared words and the region are two parts of one memory: both are lent to the judgement, which cannot write.
fn judge_in(
    mem: &[u16],
    at: usize,
    end: usize,
    s: usize,
    seg: &[u8],
    facts: Facts,
    r: Regs,
) -> Planned
    requires { Steady seg.now facts mem.now at end s r }
    ensures { outcome_of seg.now r result ≡ judge seg.now (take s mem.now) (part at end mem.now) (regs_of r) }
{
    judge::judge(seg, facts, &mem[at..end], &mem[..s], r)
}

pub fn step(
    mem: &mut [u16],
    at: usize,
    end: usize,
    s: usize,
    seg: &[u8],
    facts: Facts,
    r: Regs,
) -> Stepped
    requires { Steady seg.now facts mem.old at end s r }
    ensures { Stood seg.now (regs_of r) (judge seg.now (take s mem.old) (part at end mem.old) (regs_of r)) at end mem.old result mem.new }
{
    match judge_in(mem, at, end, s, seg, facts, r) {
        Planned::Move(sp, next) => Stepped::Went(r.pop(sp).move_counter(next)),
        Planned::Put(v, sp, next, place) => {
            commit::put_word(mem, at, end, place, v);
            Stepped::Went(r.pop(sp).move_counter(next))
        }
        Planned::Push(v, sp, next) => {
            commit::put_word(mem, at, end, sp, v);
            Stepped::Went(r.push(sp).move_counter(next))
        }
        Planned::One(v, next) => {
            commit::put_word(mem, at, end, r.sp, v);
            Stepped::Went(r.move_counter(next))
        }
        Planned::Two(v, next) => {
            commit::put_word(mem, at, end, r.sp + 1, v);
            Stepped::Went(r.pop(r.sp + 1).move_counter(next))
        }
        Planned::Swap(x, y, next) => {
            commit::put_pair(mem, at, end, r.sp, x, y);
            Stepped::Went(r.move_counter(next))
        }
        Planned::Call(parent, next, sp, counter, k) => {
            let mark = commit::mark(parent, r.m as u16, next, r.routine as u16);
            commit::put_mark(mem, at, end, sp, mark);
            Stepped::Went(r.push(sp).move_counter(counter).enter(sp, k))
        }
        // where a mark was forged, a return can lower the stack pointer
        Planned::Back(sp, m, counter, k) => {
            Stepped::Went(r.push(sp).move_counter(counter).enter(m, k))
        }
        Planned::Block(first, n, next, sex) => {
            commit::put_block(mem, at, end, r.sp, n, seg, first, sex);
            Stepped::Went(r.push(r.sp - n).move_counter(next))
        }
        // only a step that faults asks how far it fetched
        Planned::Bad(n) => Stepped::Stuck(n, instruction::place_of(seg, n, r.counter)),
        Planned::Finish => Stepped::Ended,
    }
}

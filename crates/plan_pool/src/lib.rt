// Words of the constant pool: those that LDC pushes, and XJP's table, by which an index chooses a byte of the code.
// Above: `judge`; below: `plan`, the jump of `plan_calls`, and the words of a segment.
#![tactic(auto, unfolding(plan::specs::Answer::outcome_of, plan::specs::Mirror::words_at, plan::specs::Mirror::sex_by, plan::specs::Mirror::blocked, plan::specs::Mirror::case_at, plan::specs::Mirror::chosen))]

ghost use Rattle.std.specs.Prelude.{◌≡◌, List, ℕ, ◌≤◌};
ghost use Rattle.pmachine.specs.Sound.{Loaded};
ghost use Rattle.plan.specs.Answer.{regs_of, outcome_of};
ghost use Rattle.plan.specs.Mirror.{words_at, sex_by, blocked, case_at, chosen};
ghost use Rattle.plan.specs.Told.{Told};

use plan::{Case, Facts, Planned, Regs};
use plan_calls::jump;

// The word of the segment from which n words of the pool are pushed, or the fault. Of some words the real pool's start decides, which is 0 with no pool; of
// no words only a pool is asked for.
pub fn words_at(facts: Facts, sp: usize, b: u16, n: u16) -> Result<u16, u8>
    requires { (facts.pool ≤ 32767) × ((facts.reals ≤ 32767) × (facts.floor ≤ 65535)) }
    ensures { result ≡ words_at facts.pool facts.reals facts.floor sp b n }
{
    if n != 0 {
        let first = facts.pool + b as usize;
        if facts.reals < first + n as usize {
            return Err(6);
        }
        if sp < facts.floor + n as usize {
            return Err(4);
        }
        return Ok(first as u16);
    }
    if facts.pool == 0 {
        return Err(6);
    }
    Ok(0)
}

// The sex in which LDC's words are read: the segment's if the mode is 2, else our own, least byte first.
fn sex_by(sex: usize, mode: u16) -> usize
    ensures { result ≡ sex_by sex mode }
{
    if mode == 2 { sex } else { 0 }
}

// n words on the stack, as they were found.
pub fn block(sex: usize, mode: u16, r: Regs, n: u16, next: usize, f: Result<u16, u8>) -> Planned
    ensures { (s : List ℕ) → outcome_of s r result ≡ blocked s (sex_by sex mode) (regs_of r) n next f }
{
    match f {
        Ok(first) => Planned::Block(first, n as usize, next, sex_by(sex, mode)),
        Err(fault) => Planned::Bad(fault),
    }
}

// What the table at offset b of the pool has for an index. With no pool the real pool's start is 0, and nothing can be read.
pub fn case_at(seg: &[u8], facts: Facts, i: u16, b: u16) -> Case
    requires { (Loaded seg.now) × (Told seg.now facts) }
    ensures { result ≡ case_at seg.now i b }
{
    let at = facts.pool + b as usize;
    if facts.reals < at + 2 {
        return Case::Unread;
    }
    let least = facts.sex == 0;
    let low = operand::word_in(seg, least, at);
    if compare::leq(low, i) != 1 {
        return Case::On;
    }
    let high = operand::word_in(seg, least, at + 1);
    if compare::leq(i, high) != 1 {
        return Case::On;
    }
    let arm = at + 2 + word::sub(i, low) as usize;
    if facts.reals <= arm {
        return Case::Unread;
    }
    Case::By(operand::word_in(seg, least, arm))
}

// The index is popped, and the session goes on where its table leads: as a jump does, or behind the instruction.
pub fn choose(len: usize, r: Regs, next: usize, c: Case) -> Planned
    requires { (r.sp ≤ 32768) × (next ≤ 65535) }
    ensures { (s : List ℕ) → outcome_of s r result ≡ chosen len (regs_of r) next c }
{
    match c {
        Case::By(d) => jump(len, r, r.sp + 1, next, d),
        Case::On => Planned::Move(r.sp + 1, next),
        Case::Unread => Planned::Bad(6),
    }
}

// Jumps, the static-link walk, calls and returns.
// Above: `judge`, and `cause` for the walk; below: `plan`, and the words of a segment.
#![tactic(auto, unfolding(pmachine::specs::Step::target, pmachine::specs::Step::mark_at, plan::specs::Answer::outcome_of, plan::specs::Mirror::in_code, plan::specs::Mirror::jumped, plan::specs::Mirror::branched, plan::specs::Mirror::entry_fault, plan::specs::Mirror::called, plan::specs::Mirror::returned))]

ghost use Rattle.std.specs.Prelude.{◌≡◌, List, ℕ, ◌+◌, ◌≤◌, ◌<◌, length};
ghost use Rattle.pmachine.specs.Step.{follow, mark_at, target};
ghost use Rattle.pmachine.specs.Sound.{Loaded};
ghost use Rattle.plan.specs.Answer.{regs_of, link_of, outcome_of};
ghost use Rattle.plan.specs.Mirror.{in_code, jumped, branched, entry_fault, entered, called, in_order, returned};
ghost use Rattle.plan.specs.Told.{Told};

use plan::{Entry, Facts, Planned, Regs, word_of};

// A target that lies in the code, or 0.
fn in_code(len: usize, t: usize) -> usize
    ensures { result ≡ in_code len t }
{
    if t < 22 {
        return 0;
    }
    if len <= t {
        return 0;
    }
    t
}

fn landing(len: usize, next: usize, a: u16) -> usize
    requires { next ≤ 65535 }
    ensures { result ≡ in_code len (target next a) }
{
    let t = next + a as usize;
    if a < 32768 {
        return in_code(len, t);
    }
    if t < 65536 {
        return in_code(len, 0);
    }
    in_code(len, t - 65536)
}

pub fn jump(len: usize, r: Regs, sp: usize, next: usize, a: u16) -> Planned
    requires { next ≤ 65535 }
    ensures { (s : List ℕ) → outcome_of s r result ≡ jumped len (regs_of r) sp next a }
{
    let t = landing(len, next, a);
    if t == 0 {
        Planned::Bad(7)
    } else {
        Planned::Move(sp, t)
    }
}

// A conditional jump looks at bit 0 only.
pub fn branch(region: &[u16], len: usize, r: Regs, want: u16, next: usize, a: u16) -> Planned
    requires next_bound { next ≤ 65535 }
    requires sp_in_bounds { (r.sp < length region.now) × (r.sp ≤ 32768) }
    ensures { (s : List ℕ) → outcome_of s r result ≡ branched region.now len (regs_of r) want next a }
{
    if word_of(region, r.sp) % 2 == want {
        jump(len, r, r.sp + 1, next, a)
    } else {
        Planned::Move(r.sp + 1, next)
    }
}

// One static link: the record that the mark at m names.
#[tactic(auto, using(pmachine::proofs::Links::follow_none, pmachine::proofs::Links::follow_more))]
fn link(region: &[u16], m: usize) -> Option<usize>
    requires { m < length region.now }
    ensures { link_of result ≡ follow region.now m 1 }
{
    let to = word_of(region, m) as usize;
    if to < 1 {
        return None;
    }
    if region.len() < to + 5 {
        return None;
    }
    Some(to)
}

// d static links: one, and then d - 1 more.
#[tactic(auto, using(pmachine::proofs::Links::follow_none, plan::proofs::Links::one_more, plan::proofs::Links::one_broken, plan::proofs::Links::one_inside))]
fn walk(region: &[u16], m: usize, d: u16) -> Option<usize>
    requires { m < length region.now }
    ensures { link_of result ≡ follow region.now m d }
{
    if d == 0 {
        return Some(m);
    }
    walk(region, link(region, m)?, d - 1)
}

// The record that d static links lead to. One link and two, the most common numbers, are followed in line. The walk is lent a part that
// is made for it: a region lent to a call as it came would live in memory, and not in registers, at every step.
#[tactic(auto, using(basis::proofs::Part::part_all, plan::proofs::Links::one_more, plan::proofs::Links::one_broken, plan::proofs::Links::one_inside))]
pub fn reach(region: &[u16], m: usize, d: u16) -> Option<usize>
    requires { m < length region.now }
    ensures { link_of result ≡ follow region.now m d }
{
    if d == 1 {
        return link(region, m);
    }
    if d == 2 {
        return link(region, link(region, m)?);
    }
    walk(&region[0..], m, d)
}

// The fault of a call whose routine has this entry, 0 if it is not linked, from the stack pointer sp, which must be `needed` at least; 0 if there is none.
// One number for both faults and for none, since a return of its own for each, or a `Result` and `?`, costs instructions at every step.
fn entry_fault(e: usize, sp: usize, needed: usize) -> u8
    ensures { result ≡ entry_fault e sp needed }
{
    if e == 0 {
        return 8;
    }
    if sp < needed {
        return 4;
    }
    0
}

// Where routine k is entered from the stack pointer sp. Of one that is not linked, word 0 is read as the size, and not used.
#[tactic(auto, using(plan::proofs::Links::entry_within, plan::proofs::Links::no_fault), unfolding(plan::specs::Mirror::entered))]
pub fn enter(seg: &[u8], facts: Facts, sp: usize, k: u16) -> Result<Entry, u8>
    requires { (Loaded seg.now) × (Told seg.now facts) }
    ensures { result ≡ entered seg.now sp k }
{
    if k < 1 {
        return Err(8);
    }
    if facts.count < k as usize {
        return Err(8);
    }
    let least = facts.sex == 0;
    let e = operand::word_in(seg, least, facts.dict + k as usize) as usize;
    let size = operand::word_in(seg, least, e) as usize;
    let fault = entry_fault(e, sp, facts.floor + 5 + size);
    if fault != 0 {
        return Err(fault);
    }
    Ok(Entry {
        sp: sp - 5 - size,
        counter: 2 * (e + 1),
    })
}

pub fn call(r: Regs, k: u16, parent: usize, next: usize, e: Result<Entry, u8>) -> Planned
    requires { (parent ≤ 65535) × (next ≤ 65535) }
    ensures { (s : List ℕ) → outcome_of s r result ≡ called (regs_of r) k parent next e }
{
    match e {
        Ok(e) => Planned::Call(parent as u16, next as u16, e.sp, e.counter, k as usize),
        Err(fault) => Planned::Bad(fault),
    }
}

// The mark of a record, five words by value.
fn mark_at(region: &[u16], m: usize) -> [u16; 5]
    requires { (m + 5 ≤ length region.now) × (m ≤ 32768) }
    ensures { result ≡ mark_at region.now m }
{
    [
        word_of(region, m),
        word_of(region, m + 1),
        word_of(region, m + 2),
        word_of(region, m + 3),
        word_of(region, m + 4),
    ]
}

// Whether a mark may be returned through: MSDYN, MSPROC, MSENDV, MSIPC and the new stack pointer.
#[tactic(auto, unfolding(basis::specs::Bools::inside, plan::specs::Mirror::in_order))]
fn in_order(len: usize, size: usize, facts: Facts, mark: [u16; 5], sp: usize) -> bool
    ensures { result ≡ in_order len size facts.count facts.floor mark sp }
{
    let dynamic = mark[1] as usize;
    if dynamic < 1 {
        return false;
    }
    if size < dynamic + 5 {
        return false;
    }
    let routine = mark[4] as usize;
    if routine < 1 {
        return false;
    }
    if facts.count < routine {
        return false;
    }
    if mark[3] == 1 {
        let counter = mark[2] as usize;
        if counter < 22 {
            return false;
        }
        if len < counter {
            return false;
        }
        if sp < facts.floor {
            return false;
        }
        return sp <= size;
    }
    false
}

pub fn give_back(len: usize, facts: Facts, region: &[u16], r: Regs, a: u16) -> Planned
    requires { (r.m + 5 ≤ length region.now) × (r.m ≤ 32768) }
    ensures { (s : List ℕ) → outcome_of s r result ≡ returned len facts.count facts.floor region.now (regs_of r) a }
{
    if r.m == 1 {
        Planned::Finish
    } else {
        let sp = r.m + 5 + a as usize;
        let mark = mark_at(region, r.m);
        if in_order(len, region.len(), facts, mark, sp) {
            Planned::Back(sp, mark[1] as usize, mark[2] as usize, mark[4] as usize)
        } else {
            Planned::Bad(9)
        }
    }
}

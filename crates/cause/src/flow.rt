// Checks on jumps, static links, calls and returns. Faults 7, 8 and 9.
// Above it: `judged`, and places for the record of an offset. Below it: numbers, `instruction` for a jump's target, `plan_calls` for the walk of links.
ghost use Rattle.std.specs.Prelude.{◌≡◌, ◌<◌, length};
ghost use Rattle.pmachine.specs.Step.{follow, reached};
ghost use Rattle.cause.specs.Answer.{link_of, whose_of, call_why};

use crate::meaning::Whose;
use crate::numbers::{Numbers, is_outside, less, narrow, word};
use crate::why::{BadLink, Flow, Why};
use instruction::Target;

// 7: the target lies in the code.
pub fn jump(n: Numbers, next: usize, d: u16) -> Result<(), Why> {
    match instruction::leads_to(narrow(next), d) {
        Target::Byte(t) => {
            if is_outside(t, 22, less(n.code as usize, 1)) {
                Err(Why::Flow(Flow::Target(t)))
            } else {
                Ok(())
            }
        }
        Target::Before(k) => Err(Why::Flow(Flow::Before(k))),
    }
}

// A conditional jump looks at bit 0 only, and a target that is not jumped to is not judged.
pub fn branch(region: &[u16], n: Numbers, want: u16, next: usize, d: u16) -> Result<(), Why> {
    if word(region, n.sp as usize) % 2 == want {
        return jump(n, next, d);
    }
    Ok(())
}

// The bad link among d, of which at least one is: the links before it lead to the record where it stands, so that is looked for from the last.
fn bad_link(region: &[u16], m: usize, d: u16) -> BadLink
    requires { m < length region.now }
{
    for before in (0..d).rev() {
        if let Some(at) = plan_calls::reach(region, m, before) {
            return BadLink {
                of: d,
                left: d - before,
                at: narrow(at),
                value: word(region, at),
            };
        }
    }
    BadLink {
        of: d,
        left: d,
        at: narrow(m),
        value: word(region, m),
    }
}

// The record that d static links lead to, as the machine walks them. Past the region, where no session's M is, stands no link.
#[tactic(auto, using(pmachine::proofs::Links::follow_none, pmachine::proofs::Links::follow_more, std::proofs::lemmas::Grind::common_steps))]
fn up(region: &[u16], m: usize, d: u16) -> Result<usize, BadLink>
    ensures { link_of result ≡ follow region.now m d }
{
    if region.len() <= m {
        if d == 0 {
            return Ok(m);
        }
        return Err(BadLink {
            of: d,
            left: d,
            at: narrow(m),
            value: 0,
        });
    }
    match plan_calls::reach(region, m, d) {
        Some(at) => Ok(at),
        None => Err(bad_link(region, m, d)),
    }
}

// Globals are the record at 1.
#[tactic(auto, unfolding(pmachine::specs::Step::reached))]
pub fn record_of(region: &[u16], m: u16, whose: Whose) -> Result<usize, BadLink>
    ensures { link_of result ≡ reached region.now m (whose_of whose) }
{
    match whose {
        Whose::Globals => Ok(1),
        Whose::Up(d) => up(region, m as usize, d),
    }
}

// 9 and then 8: the parent's record, and the routine.
pub fn call(seg: &[u8], region: &[u16], n: Numbers, whose: Whose, k: u16) -> Result<(), Why> {
    record_of(region, n.m, whose)?;
    callable(seg, n, k)
}

// 8: the segment has the routine, and it is linked.
fn callable(seg: &[u8], n: Numbers, k: u16) -> Result<(), Why>
    ensures { result ≡ call_why n.count seg.now k }
{
    if is_outside(k as usize, 1, n.count as usize) {
        return Err(Why::Flow(Flow::Routine(k)));
    }
    let r = segment::routine_of(seg, k);
    if r.entry == 0 {
        return Err(Why::Flow(Flow::Unlinked(k)));
    }
    Ok(())
}

// 9 of a return that drops b words, unless it finishes.
pub fn back(region: &[u16], n: Numbers, b: u16) -> Result<(), Why> {
    if n.m == 1 {
        return Ok(());
    }
    let m = n.m as usize;
    marked(
        n,
        word(region, m + 1),
        word(region, m + 4),
        word(region, m + 3),
        word(region, m + 2),
        b,
    )
}

// MSDYN, MSPROC, MSENDV, MSIPC and the new SP, in this order.
fn marked(
    n: Numbers,
    dynamic: u16,
    caller: u16,
    segment: u16,
    counter: u16,
    b: u16,
) -> Result<(), Why> {
    if is_outside(dynamic as usize, 1, less(n.len as usize, 5)) {
        return Err(Why::Flow(Flow::Dynamic(dynamic)));
    }
    if is_outside(caller as usize, 1, n.count as usize) {
        return Err(Why::Flow(Flow::Caller(caller)));
    }
    if segment != 1 {
        return Err(Why::Flow(Flow::Segment(segment)));
    }
    if is_outside(counter as usize, 22, n.code as usize) {
        return Err(Why::Flow(Flow::Resume(counter)));
    }
    let sp = n.m as usize + 5 + b as usize;
    if is_outside(sp, n.floor as usize, n.len as usize) {
        return Err(Why::Flow(Flow::Back(sp, b)));
    }
    Ok(())
}

// Checks on words of the constant pool: those that LDC pushes, and the case table of XJP with the byte that it leads to. Faults 6 and 7.
// Above it: `judged`. Below it: the header numbers of `segment`, a segment's words in `operand`, and `instruction` for a jump's target.
ghost use Rattle.std.specs.Prelude.{◌≡◌, cond};
ghost use Rattle.basis.specs.Bools.{inside};
ghost use Rattle.pmachine.specs.Pool.{in_pool};
ghost use Rattle.cause.specs.Fault.{fault_of};
ghost use Rattle.cause.specs.Cases.{arm_fault, case_fault};
ghost use Rattle.instruction.specs.Targets.{byte_of};

use crate::why::{Flow, Place, Why};
use instruction::Target;

// The first byte of the code.
const FIRST: usize = 22;

// 6 of LDC: there is a pool, and the k words from offset b on lie before the real pool, which starts at the segment's end at the latest. Of no words none lies too high.
#[tactic(auto, using(crate::proofs::Cases::no_pool, crate::proofs::Cases::no_words, crate::proofs::Cases::low_words, crate::proofs::Cases::high_words))]
pub fn constants(seg: &[u8], b: u16, k: u16) -> Result<(), Why>
    ensures { fault_of result ≡ cond (in_pool seg.now b k) 0 6 }
{
    let h = segment::head(seg);
    if h.pool == 0 {
        return Err(Why::Place(Place::NoPool));
    }
    if k == 0 {
        return Ok(());
    }
    let at = h.pool as u32 + b as u32;
    let last = at + k as u32 - 1;
    if (last as usize) < h.reals {
        return Ok(());
    }
    Err(Why::Place(Place::Constants(at, last, h.reals)))
}

// 6 and then 7 of XJP: the table's lowest and highest index can be read, and for an index from the one to the other its word of the table too; that one
// leads to a byte of the code. Of any other index no more is judged.
#[tactic(auto, using(crate::proofs::Cases::none, crate::proofs::Cases::high, crate::proofs::Cases::below, crate::proofs::Cases::above, crate::proofs::Cases::chosen))]
pub fn case(seg: &[u8], i: u16, b: u16, next: u16) -> Result<(), Why>
    ensures { fault_of result ≡ case_fault seg.now b next i }
{
    let h = segment::head(seg);
    if h.pool == 0 {
        return Err(Why::Place(Place::NoTable));
    }
    let at = h.pool as u32 + b as u32;
    if h.reals < at as usize + 2 {
        return Err(Why::Place(Place::Table(at, h.reals)));
    }
    let low = operand::word_at(seg, h.least, at);
    if compare::leq(low, i) != 1 {
        return Ok(());
    }
    let high = operand::word_at(seg, h.least, at + 1);
    if compare::leq(i, high) != 1 {
        return Ok(());
    }
    arm(seg, i, at + 2 + word::sub(i, low) as u32, next)
}

// The index's word of the table, and where it leads.
#[tactic(auto, unfolding(crate::specs::Cases::arm_fault, segment::specs::Head::word))]
fn arm(seg: &[u8], i: u16, at: u32, next: u16) -> Result<(), Why>
    ensures { fault_of result ≡ arm_fault seg.now at next }
{
    let h = segment::head(seg);
    if h.reals <= at as usize {
        return Err(Why::Place(Place::Arm(i, at, h.reals)));
    }
    led(
        i,
        seg.len(),
        instruction::leads_to(next, operand::word_at(seg, h.least, at)),
    )
}

// The target lies in the code, whose bytes are 22 up to the segment's end.
#[tactic(auto, unfolding(basis::specs::Bools::inside))]
fn led(i: u16, len: usize, l: Target) -> Result<(), Why>
    ensures { fault_of result ≡ cond (inside 22 len (byte_of l)) 0 7 }
{
    match l {
        Target::Byte(t) => {
            if FIRST <= t && t < len {
                Ok(())
            } else {
                Err(Why::Flow(Flow::Case(i, t)))
            }
        }
        Target::Before(k) => Err(Why::Flow(Flow::CaseBefore(i, k))),
    }
}

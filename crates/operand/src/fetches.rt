// The operands of instructions, at a byte offset. They are never swapped: W is least byte first in a segment of either sex.
// Below: bytes and pairs. Above: the reader, and the machine's step, which calls one of the four small functions an operand.
#![tactic(auto, unfolding(crate::specs::Operand::fetched, crate::specs::Operand::if_there, crate::specs::Operand::signed))]

ghost use Rattle.std.specs.Prelude.{◌≡◌, ◌-◌};
ghost use Rattle.operand.specs.Operand.{UB, SB, B, W, fetched, fetched_of};

use crate::parts::pair;
use crate::{Missing, Operand};

// UB and DB.
pub fn unsigned(seg: &[u8], at: usize) -> Result<Operand, Missing>
    ensures { fetched_of result ≡ fetched UB seg.now at }
{
    if at < seg.len() {
        return Ok(Operand {
            value: seg[at] as u16,
            next: at + 1,
        });
    }
    Err(Missing { place: at })
}

// SB, in 16 bits of two's complement.
pub fn signed(seg: &[u8], at: usize) -> Result<Operand, Missing>
    ensures { fetched_of result ≡ fetched SB seg.now at }
{
    if at < seg.len() {
        let b = seg[at] as u16;
        if b < 128 {
            return Ok(Operand {
                value: b,
                next: at + 1,
            });
        }
        return Ok(Operand {
            value: b + 65280,
            next: at + 1,
        });
    }
    Err(Missing { place: at })
}

// B.
pub fn big(seg: &[u8], at: usize) -> Result<Operand, Missing>
    ensures { fetched_of result ≡ fetched B seg.now at }
{
    if at < seg.len() {
        let b = seg[at];
        let next = at + 1;
        if b < 128 {
            return Ok(Operand {
                value: b as u16,
                next,
            });
        }
        if next < seg.len() {
            return Ok(Operand {
                value: pair(seg[next], b - 128),
                next: at + 2,
            });
        }
        return Err(Missing { place: next });
    }
    Err(Missing { place: at })
}

// One less, and 0 of 0.
fn less_one(n: usize) -> usize
    ensures { result ≡ n - 1 }
{
    if n == 0 {
        return 0;
    }
    n - 1
}

// W. One test tells that both bytes are there: `less_one` is of the segment and not of the offset, so a loop makes it once.
pub fn wide(seg: &[u8], at: usize) -> Result<Operand, Missing>
    ensures { fetched_of result ≡ fetched W seg.now at }
{
    if at < less_one(seg.len()) {
        return Ok(Operand {
            value: pair(seg[at], seg[at + 1]),
            next: at + 2,
        });
    }
    if at < seg.len() {
        return Err(Missing { place: at + 1 });
    }
    Err(Missing { place: at })
}

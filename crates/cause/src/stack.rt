// Checks on the words of the stack: enough to take, a divisor, a subrange, and room for what is given.
// Above it: `judged`. Below it: numbers, and the signed comparison of `compare`.
ghost use Rattle.std.specs.Prelude.{◌≡◌, cond, ◌+◌, ◌-◌, ltb, eqb, get_or};
ghost use Rattle.cause.specs.Fault.{fault_of};

use crate::numbers::{Numbers, less, word};
use crate::why::{Stack, Why};

// 3: the stack occupies SP to L-1.
pub fn few(n: Numbers, taken: u8) -> Result<(), Why>
    ensures { fault_of result ≡ cond (ltb n.len (n.sp + taken)) 3 0 }
{
    if n.sp as usize + taken as usize <= n.len as usize {
        return Ok(());
    }
    Err(Why::Stack(Stack::Few(taken, less(n.len as usize, n.sp as usize))))
}

// 5: the divisor is on top, the dividend below it.
pub fn divided(region: &[u16], n: Numbers) -> Result<(), Why>
    ensures { fault_of result ≡ cond (eqb (get_or region.now n.sp 0) 0) 5 0 }
{
    if word(region, n.sp as usize) == 0 {
        return Err(Why::Stack(Stack::Zero(word(region, n.sp as usize + 1))));
    }
    Ok(())
}

// 10: high is on top, low below it, and then the value.
pub fn ranged(region: &[u16], n: Numbers) -> Result<(), Why> {
    let high = word(region, n.sp as usize);
    let low = word(region, n.sp as usize + 1);
    let value = word(region, n.sp as usize + 2);
    if compare::leq(low, value) == 1 {
        if compare::leq(value, high) == 1 {
            return Ok(());
        }
    }
    Err(Why::Stack(Stack::Range(value, low, high)))
}

// 4, of all but calls and LDC: SP after the words taken and given.
pub fn deep(n: Numbers, taken: u8, given: u8) -> Result<(), Why>
    ensures { fault_of result ≡ cond (ltb (n.sp + taken - given) n.floor) 4 0 }
{
    let after = less(n.sp as usize + taken as usize, given as usize);
    if after < n.floor as usize {
        return Err(Why::Stack(Stack::Deep(after)));
    }
    Ok(())
}

// 4, of a call: a mark of 5 words and the routine's DATASIZE.
pub fn entered(n: Numbers, k: u16, size: u16) -> Result<(), Why>
    ensures { fault_of result ≡ cond (ltb n.sp (n.floor + 5 + size)) 4 0 }
{
    if n.floor as usize + 5 + size as usize <= n.sp as usize {
        return Ok(());
    }
    Err(Why::Stack(Stack::Room(k, size, less(n.sp as usize, n.floor as usize))))
}

// 4, of LDC: so many words, the last of them on top.
pub fn block(n: Numbers, k: u16) -> Result<(), Why>
    ensures { fault_of result ≡ cond (ltb n.sp (n.floor + k)) 4 0 }
{
    if n.floor as usize + k as usize <= n.sp as usize {
        return Ok(());
    }
    Err(Why::Stack(Stack::Block(k, less(n.sp as usize, n.floor as usize))))
}

// Checks on addresses: words of records, indexed addresses, addresses that are stored to, and constants of the pool. Fault 6.
// Above it: `judged`. Below it: flow for the record, numbers.
ghost use Rattle.std.specs.Prelude.{◌≡◌, cond, ◌+◌, ltb};
ghost use Rattle.cause.specs.Fault.{fault_of};

use crate::flow;
use crate::meaning::Whose;
use crate::numbers::{Numbers, narrow, word};
use crate::why::{Address, Place, Why};

// The first address of a shared word.
const SHARED: usize = 32768;

// The last address.
const LAST: usize = 65535;

// Offset x of a record is word M+4+x, which lies in the region; the record's links come before it.
pub fn offset(region: &[u16], n: Numbers, whose: Whose, x: u16) -> Result<(), Why> {
    let m = flow::record_of(region, n.m, whose)?;
    local(n, narrow(m), x)
}

fn local(n: Numbers, m: u16, x: u16) -> Result<(), Why>
    ensures { fault_of result ≡ cond (ltb (m + 4 + x) n.len) 0 6 }
{
    let at = m as usize + 4 + x as usize;
    if at < n.len as usize {
        return Ok(());
    }
    Err(Why::Place(Place::Offset(x, m, at)))
}

// The word i words on from the address on top of the stack: private, or a shared one.
pub fn indexed(region: &[u16], n: Numbers, i: u16) -> Result<(), Why> {
    let base = word(region, n.sp as usize);
    if base == 0 {
        return Err(Why::Address(Address::Nil(i)));
    }
    let at = base as usize + i as usize;
    if at < n.len as usize {
        return Ok(());
    }
    if at < SHARED {
        return Err(Why::Address(Address::Word(base, i)));
    }
    if LAST < at {
        return Err(Why::Address(Address::Above(base, i)));
    }
    if at - SHARED < n.shared as usize {
        return Ok(());
    }
    Err(Why::Address(Address::Shared(base, i)))
}

// The address below the top of the stack: a private word, and nothing else.
pub fn stored(region: &[u16], n: Numbers) -> Result<(), Why> {
    let to = word(region, n.sp as usize + 1);
    if to == 0 {
        return Err(Why::Address(Address::StoreNil));
    }
    if (to as usize) < n.len as usize {
        return Ok(());
    }
    if (to as usize) < SHARED {
        return Err(Why::Address(Address::StoreWord(to)));
    }
    Err(Why::Address(Address::StoreShared(to)))
}

// Constant x of the pool lies in the segment.
pub fn pool(n: Numbers, x: u16) -> Result<(), Why> {
    if n.pool == 0 {
        return Err(Why::Place(Place::NoPool));
    }
    let at = n.pool as usize + x as usize;
    if at < n.code as usize / 2 {
        return Ok(());
    }
    Err(Why::Place(Place::Pool(x, at)))
}

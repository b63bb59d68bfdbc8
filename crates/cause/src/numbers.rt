// The numbers that checks are made on: what the segment says, what was opened, and the registers, all narrow, so that their sums fit.
// Above it: the deciding modules and the words. Below it: `segment`.
ghost use Rattle.std.specs.Prelude.{◌≡◌, ◌-◌, Bool, ◌&&◌, not, leb, get_or};

use plan::Regs;

// A number that no lawful one reaches.
const HUGE: u16 = 65535;

// `code` is 2W, the bytes of the segment, `floor` is 6+G, `count` the number of routines, `len` is L and `shared` the number of words in its window.
#[derive(Clone, Copy)]
pub struct Numbers {
    pub code: u16,
    pub pool: u16,
    pub count: u16,
    pub floor: u32,
    pub len: u16,
    pub shared: u16,
    pub sp: u16,
    pub m: u16,
    pub counter: u16,
}

// None where a number is one that no session can have: then no check means anything.
pub fn numbers_of(seg: &[u8], len: usize, shared: usize, regs: Regs) -> Option<Numbers> {
    let head = segment::head(seg);
    let floor = segment::floor(seg);
    if !is_kept(seg.len(), head.count, floor, len, shared, regs) {
        return None;
    }
    Some(Numbers {
        code: narrow(seg.len()),
        pool: head.pool,
        count: head.count,
        floor,
        len: narrow(len),
        shared: narrow(shared),
        sp: narrow(regs.sp),
        m: narrow(regs.m),
        counter: narrow(regs.counter),
    })
}

pub fn narrow(n: usize) -> u16 {
    u16::try_from(n).unwrap_or(HUGE)
}

// A segment has 32 to 65534 bytes, a session at most 32768 words and as many shared ones; its routine is one of the segment's.
fn is_kept(code: usize, count: u16, floor: u32, len: usize, shared: usize, regs: Regs) -> bool {
    32 <= code
        && code <= 65534
        && shared <= 32768
        && 1 <= regs.routine
        && regs.routine <= count as usize
        && regs_kept(code, floor, len, regs)
}

// SP lies in 6+G..L, M in 1..L-5, the counter is at most 2W.
fn regs_kept(code: usize, floor: u32, len: usize, regs: Regs) -> bool {
    len <= 32768
        && floor as usize <= regs.sp
        && regs.sp <= len
        && 1 <= regs.m
        && regs.m < less(len, 4)
        && regs.counter <= code
}

// n less k, and 0 below 0.
pub fn less(n: usize, k: usize) -> usize
    ensures { result ≡ n - k }
{
    n.saturating_sub(k)
}

// Whether a number lies outside low to high.
pub fn is_outside(n: usize, low: usize, high: usize) -> bool
    ensures { result ≡ not (leb low n && leb n high) }
{
    n < low || high < n
}

// The word of the region at a place, and 0 past its end.
pub fn word(region: &[u16], at: usize) -> u16
    ensures { result ≡ get_or region.now at 0 }
{
    if at < region.len() {
        return region[at];
    }
    0
}

// Where an instruction leads: whether a jump's target lies in the code, whether a routine is there, and the byte after a line.
// Above it: the operands and the lines of a listing. Below it: `bounds`.
ghost use Rattle.std.specs.Prelude.{◌≡◌, ◌+◌, ◌<◌};
ghost use Rattle.basis.specs.Bools.{inside};
ghost use Rattle.spans.specs.Native.{onward, line_after};

// The numbers of native code, and of what is told about it.
pub const NAT: u8 = 168;

pub const NAT_INFO: u8 = 169;

// Whether a jump to byte t stays in the code of a segment of so many bytes: its target lies in 22..2W-1.
pub fn in_code(len: usize, t: usize) -> bool
    ensures { result ≡ inside 22 len t }
{
    bounds::within(22, len, t)
}

// Whether a segment with n routines has routine k.
pub fn one_to(n: u16, k: u16) -> bool
    ensures { result ≡ inside 1 (n + 1) k }
{
    bounds::within(1, usize::from(n) + 1, usize::from(k))
}

// The byte where the line after an instruction begins, in a segment of so many bytes: after it, but for native code.
#[tactic(auto, unfolding(crate::specs::Native::line_after))]
pub fn line_after(len: usize, first: u8, x: u16, next: usize) -> usize
    ensures { result ≡ line_after len first x next }
{
    match first {
        NAT => len,
        NAT_INFO => passed(len, next, usize::from(x)),
        _ => next,
    }
}

// So many bytes on, or the segment's end where it has not so many.
#[tactic(auto, unfolding(crate::specs::Native::onward))]
fn passed(len: usize, next: usize, x: usize) -> usize
    ensures { result ≡ onward len next x }
{
    if x < len.saturating_sub(next) {
        next + x
    } else {
        len
    }
}

// The byte after a line. It always goes forward, so that a listing ends.
pub fn forward(end: usize, at: usize, next: usize) -> usize
    ensures { at < end → at < result }
{
    if at < next {
        return next;
    }
    if at < end {
        return at + 1;
    }
    at
}

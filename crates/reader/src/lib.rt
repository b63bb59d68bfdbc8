// The reader: a bounded view of one segment with a reading place, so that no caller adds offsets by hand.
// Below: the operands. Above: `instruction`, and so listings, the place of a fault and what is told of it.
// `next` takes the struct apart and calls a function on the slice and numbers; `read_at` is for callers with a slice and numbers.
#![tactic(auto)]

ghost use Rattle.std.specs.Prelude.{◌≡◌};
ghost use Rattle.operand.specs.Operand.{fetched, fetched_of, form_at};

use operand::{Missing, Operand};

#[derive(Clone, Copy)]
pub struct Reader<'a> {
    pub src: &'a [u8],
    pub at: usize,
}

pub fn new<'a>(src: &'a [u8]) -> Reader<'a>
    ensures { (result.src ≡ src.entry) × (result.at ≡ 0) }
{
    Reader { src, at: 0 }
}

pub fn moved<'a>(r: Reader<'a>, at: usize) -> Reader<'a>
    ensures { (result.src ≡ r.entry.src) × (result.at ≡ at) }
{
    Reader { src: r.src, at }
}

// An operand by its form's number in the table of first bytes: 1 UB, 2 SB, 3 DB, 4 B, 5 W.
fn fetch_coded(src: &[u8], at: usize, digit: u8) -> Result<Operand, Missing>
    ensures { fetched_of result ≡ fetched (form_at digit) src.now at }
{
    if digit == 1 {
        return operand::unsigned(src, at);
    }
    if digit == 2 {
        return operand::signed(src, at);
    }
    if digit == 3 {
        return operand::unsigned(src, at);
    }
    if digit == 4 {
        return operand::big(src, at);
    }
    operand::wide(src, at)
}

// The same at the reader's place.
pub fn next<'a>(r: Reader<'a>, digit: u8) -> Result<Operand, Missing>
    ensures { fetched_of result ≡ fetched (form_at digit) r.entry.src.now r.entry.at }
{
    fetch_coded(r.src, r.at, digit)
}

// The same with plain parameters, by a reader that is made and moved: so a caller needs none of its own.
pub fn read_at(seg: &[u8], at: usize, digit: u8) -> Result<Operand, Missing>
    ensures { fetched_of result ≡ fetched (form_at digit) seg.now at }
{
    next(moved(new(seg), at), digit)
}

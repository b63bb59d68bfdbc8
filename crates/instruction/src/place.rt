// How far a step fetches, and the place of its fault.
// Above: `steps`, for a step that faults, and what is told of a fault. Below: `read`, which has the operand reader's report.
ghost use Rattle.std.specs.Prelude.{◌≡◌};
ghost use Rattle.pmachine.specs.Decoding.{fetches_to};
ghost use Rattle.pmachine.specs.Run.{place_of};

use crate::read;

// The first byte of the code.
const FIRST: usize = 22;

// The byte after the instruction at `at`, or the first one that could not be fetched. Of a byte that is not carried no operand is fetched,
// and none from a byte that is not of the code.
pub fn fetches_to(seg: &[u8], at: usize) -> usize
    ensures { result ≡ fetches_to seg.now at }
{
    if at < FIRST {
        return at;
    }
    let i = read(seg, at);
    if i.carried {
        return i.next;
    }
    at + 1
}

// The place of fault `number` of the instruction at `at`: for 1 the byte where the bytes ran out, for every other its first byte.
#[tactic(auto, unfolding(pmachine::specs::Run::place_of))]
pub fn place_of(seg: &[u8], number: u8, at: usize) -> usize
    ensures { result ≡ place_of seg.now number at }
{
    if number == 1 {
        return fetches_to(seg, at);
    }
    at
}

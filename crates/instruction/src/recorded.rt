// Whether the fault that a session has recorded is the one that its numbers give: the same number, at its place.
// Above: `pond_why`, which then says the reason in full. Below: the place of a fault.
ghost use Rattle.std.specs.Prelude.{◌≡◌};
ghost use Rattle.instruction.specs.Recorded.{recorded};

use crate::place_of;

// `found` is the fault that the numbers give, 0 for none. Before request 8 the place of fault 1 was the instruction's first byte too, as of every
// other fault still: such a record is of the same fault.
#[tactic(auto, unfolding(crate::specs::Recorded::recorded))]
pub fn is_recorded(seg: &[u8], counter: usize, found: u8, number: u8, place: usize) -> bool
    ensures { result ≡ recorded seg.now counter found number place }
{
    if found == 0 {
        return false;
    }
    if found != number {
        return false;
    }
    if place == counter {
        return true;
    }
    place == place_of(seg, number, counter)
}

// Where a jump leads, for people: also how far below the segment.
// Above: listings, and what is told of a fault. Below: nothing. The machine's own step asks `plan_calls`, which needs only whether the target is code.
ghost use Rattle.std.specs.Prelude.{◌≡◌};
ghost use Rattle.pmachine.specs.Step.{target};
ghost use Rattle.instruction.specs.Targets.{byte_of};

// A byte's number, in the segment or past it; or how far below byte 0.
#[derive(Clone, Copy)]
pub enum Target {
    Byte(usize),
    Before(usize),
}

// Jumps count from the byte after the instruction, by a distance in two's complement.
#[tactic(auto, unfolding(pmachine::specs::Step::target))]
pub fn leads_to(next: u16, distance: u16) -> Target
    ensures { byte_of result ≡ target next distance }
{
    let t = next as usize + distance as usize;
    if distance < 32768 {
        return Target::Byte(t);
    }
    if t < 65536 {
        return Target::Before(65536 - t);
    }
    Target::Byte(t - 65536)
}

// How deep a session's stack went, in the numbers by which a farmer orders a region: the words that it never reached, and the least region that would have done.
// Above it: what is told of a session. Below it: nothing; what the numbers mean, and that they are the right ones to order by, is in specs/.
#![tactic(auto)]

ghost use Rattle.std.specs.Prelude.{◌≡◌};
ghost use Rattle.depth.specs.Depth.{unreached, told};

// The least words that an opening takes.
pub const LEAST: usize = 16;

// How many words, from word floor on, lie below the lowest stack pointer.
pub fn unreached(floor: usize, lowest: usize) -> usize
    ensures { result ≡ unreached floor lowest }
{
    lowest.saturating_sub(floor)
}

// The least words of a region whose stack would have been enough. The sum of any session's numbers fits; it stays the largest number since these may be any.
pub fn enough(floor: usize, len: usize, lowest: usize) -> usize
    ensures { result ≡ told floor len lowest }
{
    let deepest = len.saturating_sub(lowest);
    floor.saturating_add(deepest).max(LEAST)
}

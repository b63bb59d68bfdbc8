// An archive: records of four words, farm, pond, day and concentration, in rising order of farm numbers. What is accepted as one, and where a
// farm's records lie in it. Above: archive, which asks this of a bench's shared words. Below: sound, for the two numbers of a window.
#![tactic(auto)]

ghost use Rattle.std.specs.Prelude.{◌≡◌, ◌-◌, ◌*◌, ◌<◌, length};
ghost use Rattle.archive_records.specs.Records.{records_in, farm_at, accepted, first_fall, range_of};

use bounds::{at_most, both};
use sound::Window;

// The farm number of record r.
fn farm_at(words: &[u16], r: usize) -> u16
    requires { 4 * r < length words.now }
    ensures { result ≡ farm_at words.now r }
{
    words[4 * r]
}

// The first record whose farm number is below that of the record before it; if there is none, the number of records, and 1 of no record.
// Kept: a number then too, and no Option, since `first_fall`, of which demands' contract and its theorem archive_falls speak, is one.
pub fn falls_at(words: &[u16]) -> usize
    ensures { result ≡ first_fall words.now (records_in words.now - 1) }
{
    let n = words.len() / 4;
    for r in 1..n {
        if farm_at(words, r) < farm_at(words, r - 1) {
            return r;
        }
    }
    n.max(1)
}

// Whether these words are an archive: whole records, whose farm numbers never fall.
pub fn is_accepted(words: &[u16]) -> bool
    ensures { result ≡ accepted words.now }
{
    let rising = at_most(words.len() / 4, falls_at(words));
    both(words.len() % 4 == 0, rising)
}

// The farm's records, as one range of words.
pub fn range_in(words: &[u16], farm: u16) -> Window
    ensures { result ≡ range_of words.now farm }
{
    let n = words.len() / 4;
    let mut first: usize = 0;
    let mut count: usize = 0;
    for r in 0..n {
        if farm_at(words, r) == farm {
            if count == 0 {
                first = r;
            }
            count += 1;
        }
    }
    Window {
        first: 4 * first,
        len: 4 * count,
    }
}

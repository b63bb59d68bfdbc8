// A word as a decimal number.
// Above it: the console. Below it: nothing.
#![tactic(auto)]

ghost use Rattle.std.specs.Prelude.{◌≡◌, ◌-◌};
ghost use Rattle.numbers.specs.Numbers.{digit_byte, all_digits, value_from, fitted, number_of};

// Why a word is no number of 64 bits: it is 2^64 or more, or it is no word of digits.
#[derive(Clone, Copy, Debug, PartialEq, Eq)]
pub enum NoNumber {
    Beyond,
    Not,
}

// The word as a decimal number: `Not` where it has no digits or anything but digits, `Beyond` where it is 2^64 or more.
pub fn number_of(word: &[u8]) -> Result<u64, NoNumber>
    ensures { result ≡ number_of word.now }
{
    if word.is_empty() {
        return Err(NoNumber::Not);
    }
    if !digits(word) {
        return Err(NoNumber::Not);
    }
    value(word)
}

// Whether every byte is a digit.
#[tactic(auto, unfolding(crate::specs::Numbers::all_digits))]
fn digits(s: &[u8]) -> bool
    ensures { result ≡ all_digits s.now }
{
    s.iter().all(|b| digit(*b))
}

#[tactic(auto, unfolding(crate::specs::Numbers::digit_byte))]
fn digit(b: u8) -> bool
    ensures { result ≡ digit_byte b }
{
    b'0' <= b && b <= b'9'
}

// The value of digits, while there is room for it. A byte below the digits is worth 0 here, so that nothing is asked of a caller.
fn value(s: &[u8]) -> Result<u64, NoNumber>
    ensures { result ≡ fitted (value_from 0 s.now) }
{
    let mut v = 0u64;
    for b in s {
        let d = u64::from(b.saturating_sub(b'0'));
        if v > (u64::MAX - d) / 10 {
            return Err(NoNumber::Beyond);
        }
        v = 10 * v + d;
    }
    Ok(v)
}

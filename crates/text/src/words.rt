// A line into words: its maximal runs of bytes that are not blank, in order.
// Above it: the console. Below it: nothing.
ghost use Rattle.std.specs.Prelude.{◌≡◌, [], ◌≤◌, length, drop, get_or};
ghost use Rattle.text.specs.Words.{blank_byte, blank_run, ink_run, words};

// Word k of a line, from 0 up, or no bytes where it has no such word.
pub fn word(line: &[u8], k: usize) -> &[u8]
    ensures { result.now ≡ get_or (words line.now) k [] }
{
    if k == 0 {
        return first(line);
    }
    word(rest(line), k - 1)
}

fn first(s: &[u8]) -> &[u8]
    ensures { result.now ≡ get_or (words s.now) 0 [] }
{
    let t = begun(s);
    let n = ink(t);
    &t[..n]
}

// What follows the first word.
fn rest(s: &[u8]) -> &[u8]
    ensures { words result.now ≡ drop 1 (words s.now) }
{
    let t = begun(s);
    let n = ink(t);
    &t[n..]
}

// The line from its first word on.
fn begun(s: &[u8]) -> &[u8]
    ensures { result.now ≡ drop (blank_run s.now) s.now }
{
    let n = blanks(s);
    &s[n..]
}

// How many blanks the line begins with.
fn blanks(s: &[u8]) -> usize
    ensures value { result ≡ blank_run s.now }
    ensures upper_bound { result ≤ length s.now }
{
    s.iter().take_while(|b| blank(**b)).count()
}

// How many other bytes it begins with.
fn ink(s: &[u8]) -> usize
    ensures value { result ≡ ink_run s.now }
    ensures upper_bound { result ≤ length s.now }
{
    s.iter().take_while(|b| !blank(**b)).count()
}

// A space, a tab, or the carriage return that some editors leave at the end of a line.
#[tactic(auto, unfolding(crate::specs::Words::blank_byte))]
pub fn blank(b: u8) -> bool
    ensures { result ≡ blank_byte b }
{
    matches!(b, b' ' | b'\t' | b'\r')
}

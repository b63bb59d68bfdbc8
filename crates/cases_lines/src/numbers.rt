// The numbers of a line, in hexadecimal digits.
// Above it: what a line sets up or asks. Below it: nothing.
ghost use Rattle.std.specs.Prelude.{◌≡◌, ◌%◌};

// How many numbers of a line are read: the most that a line of docs/CASES.md can have, but for a list of words.
pub const NUMBERS: usize = 16;

// What a digit stands for. Only small letters are digits, so `char::to_digit` does not serve.
fn digit(b: u8) -> Option<u8> {
    match b {
        b'0'..=b'9' => Some(b - b'0'),
        b'a'..=b'f' => Some(b - b'a' + 10),
        _ => None,
    }
}

// A number after one digit more, its low 64 bits; a byte that is no digit changes nothing.
fn longer(n: u64, b: u8) -> u64 {
    match digit(b) {
        Some(d) => n << 4 | u64::from(d),
        None => n,
    }
}

fn number(text: &[u8]) -> u64 {
    text.iter().fold(0, |n, b| longer(n, *b))
}

// Two digits as a byte. A byte that is no digit counts as 0.
fn pair(a: u8, b: u8) -> u8 {
    digit(a).unwrap_or(0) << 4 | digit(b).unwrap_or(0)
}

// The letter of a line, if it is a line of the format: a letter stands alone or before a blank.
pub fn letter(line: &[u8]) -> Option<u8> {
    match line {
        [what] | [what, b' ', ..] => Some(*what),
        _ => None,
    }
}

// The first numbers: number k, counted from 0, stands after k + 1 blanks. One that is missing is 0.
pub fn numbers(line: &[u8]) -> [u64; NUMBERS] {
    let mut out = [0u64; NUMBERS];
    for (n, text) in out.iter_mut().zip(line.split(|b| *b == b' ').skip(1)) {
        *n = number(text);
    }
    out
}

// The first number.
pub fn first(line: &[u8]) -> u64 {
    numbers(line)[0]
}

// What stands after the second blank: all but the letter and the first number.
pub fn rest(line: &[u8]) -> &[u8] {
    line.splitn(3, |b| *b == b' ').nth(2).unwrap_or_default()
}

// The low 16 bits of a number, and its low 8: two functions, since one for any width would need a trait of its own for its `as`.
pub fn low_word(n: u64) -> u16
    ensures { result ≡ n % 65536 }
{
    (n % 65536) as u16
}

pub fn low_byte(n: u64) -> u8
    ensures { result ≡ n % 256 }
{
    (n % 256) as u8
}

// Puts the numbers of text into the words from at on. A blank begins the next word, and so does one in front of all numbers: then the word at `at` stays.
pub fn put_words(text: &[u8], memory: &mut [u16], at: u64) {
    let Some(room) = memory.get_mut(at as usize..) else {
        return;
    };
    for (i, (word, digits)) in room.iter_mut().zip(text.split(|b| *b == b' ')).enumerate() {
        if 0 < i || !digits.is_empty() {
            *word = low_word(number(digits));
        }
    }
}

// Puts the pairs of digits of text into the bytes from at on.
pub fn put_bytes(text: &[u8], store: &mut [u8], at: u64) {
    let Some(room) = store.get_mut(at as usize..) else {
        return;
    };
    let (pairs, _) = text.as_chunks::<2>();
    for (byte, [a, b]) in room.iter_mut().zip(pairs) {
        *byte = pair(*a, *b);
    }
}

// A phrase with marks, each of which stands for a number.
// Above it: whatever says a sentence. Below it: how the console speaks.

// The phrase with its numbers, each at its mark.
pub fn say(phrase: &[u8], numbers: &[u64]) {
    let mut rest = phrase;
    for n in numbers {
        rest = marked(rest, *n);
    }
    pond_say::text(rest);
}

// The phrase up to its first mark, and the number there; what is left of it.
fn marked(phrase: &[u8], n: u64) -> &[u8] {
    let Some(i) = phrase.iter().position(|b| is_mark(*b)) else {
        pond_say::text(phrase);
        return b"";
    };
    pond_say::text(&phrase[..i]);
    put(phrase[i], n);
    &phrase[i + 1..]
}

fn is_mark(b: u8) -> bool {
    matches!(b, b'#' | b'~' | b'^' | b'%' | b'@' | b'_')
}

// A number at its mark: # is the number, ~ the word as a signed number, ^ the byte in hexadecimal, % an s unless it is 1, @ so many of what
// there is, and _ the end of a range, where that is not 0.
fn put(mark: u8, n: u64) {
    match mark {
        b'#' => pond_say::number(n),
        b'~' => pond_say::signed((n % 65536) as u16),
        b'^' => pond_say::hex(n, 2),
        b'%' => plural(n),
        b'@' => so_many(n),
        _ => to(n),
    }
}

fn plural(n: u64) {
    if n != 1 {
        pond_say::text(b"s");
    }
}

// `is none`, `is 1`, `are 7`
fn so_many(n: u64) {
    match n {
        0 => pond_say::text(b"is none"),
        1 => pond_say::text(b"is 1"),
        _ => {
            pond_say::text(b"are ");
            pond_say::number(n);
        }
    }
}

fn to(n: u64) {
    if n > 0 {
        pond_say::text(b" to ");
        pond_say::number(n);
    }
}

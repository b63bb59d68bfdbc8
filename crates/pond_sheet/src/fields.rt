// The fields of a line: what stands between blanks, tabs, commas and semicolons.
// Above it: the lines of a sheet. Below it: numbers.
ghost use Rattle.std.specs.Prelude.{IfSome, ◌<◌, ◌≤◌, length};

use crate::complaints::Wrong;
use numbers::number_of;

// A record: its four words.
#[derive(Clone, Copy)]
pub struct Record {
    pub farm: u16,
    pub pond: u16,
    pub day: u16,
    pub concentration: u16,
}

// How many fields a line has, whether one is not empty, whether one begins as a number does; the numbers of the first four, where they are numbers of a word;
// and the first field that is none.
#[derive(Clone, Copy)]
pub struct Fields<'a> {
    count: usize,
    pub ink: bool,
    pub numeric: bool,
    numbers: [u16; 4],
    wrong: Option<&'a [u8]>,
}

pub fn fields_of(line: &[u8]) -> Fields<'_> {
    let mut f = Fields {
        count: 0,
        ink: false,
        numeric: false,
        numbers: [0u16; 4],
        wrong: None,
    };
    let mut rest = line;
    while let Some((word, next)) = field(rest) {
        f = f.with(word);
        rest = next;
    }
    f
}

impl<'a> Fields<'a> {
    // The fields with one more.
    fn with(self, word: &'a [u8]) -> Fields<'a> {
        let mut out = self;
        out.ink = self.ink || !word.is_empty();
        out.numeric = self.numeric || begins_number(word);
        match value_of(word) {
            Some(n) => {
                if let Some(number) = out.numbers.get_mut(self.count) {
                    *number = n;
                }
            }
            None => {
                out.wrong = self.wrong.or(Some(word));
            }
        }
        out.count = self.count.saturating_add(1);
        out
    }

    // The four numbers of a record, where they are four and nothing else.
    pub fn record(self) -> Result<Record, Wrong<'a>> {
        if let Some(word) = self.wrong {
            return Err(Wrong::Field(word));
        }
        if self.count != 4 {
            return Err(Wrong::Count(self.count));
        }
        let [farm, pond, day, concentration] = self.numbers;
        Ok(Record {
            farm,
            pond,
            day,
            concentration,
        })
    }
}

// The first field of a line, which is empty where two commas stand side by side; and what stands behind it, and behind the blanks that follow and one comma or
// semicolon.
fn field(line: &[u8]) -> Option<(&[u8], &[u8])>
    ensures { IfSome result (λ p. length p.1.now < length line.now) }
{
    let inked = inked(line);
    match inked {
        [] => None,
        [b',' | b';', rest @ ..] => Some((&inked[..0], rest)),
        [_, more @ ..] => {
            let n = more.iter().position(|b| ends(*b)).unwrap_or(more.len());
            let (word, rest) = inked.split_at(n + 1);
            Some((word, behind_mark(rest)))
        }
    }
}

// Behind the blanks that follow a field, and one comma or semicolon.
fn behind_mark(rest: &[u8]) -> &[u8]
    ensures { length result.now ≤ length rest.now }
{
    let next = inked(rest);
    match next {
        [b',' | b';', behind @ ..] => behind,
        _ => next,
    }
}

// A line from its first byte on that is no blank.
pub fn inked(line: &[u8]) -> &[u8]
    ensures { length result.now ≤ length line.now }
{
    let n = line.iter().position(|b| !is_blank(*b));
    &line[n.unwrap_or(line.len())..]
}

// Whether a field ends before this byte.
fn ends(b: u8) -> bool {
    is_blank(b) || matches!(b, b',' | b';')
}

// A blank, a tab, or an end of line.
fn is_blank(b: u8) -> bool {
    matches!(b, b' ' | b'\t' | b'\n' | b'\r')
}

// A digit, a sign or a point, also behind a quote: a word of a heading begins with none of them.
fn begins_number(word: &[u8]) -> bool {
    match word {
        [] => false,
        [b'"', second, ..] => is_of_number(*second),
        [first, ..] => is_of_number(*first),
    }
}

fn is_of_number(b: u8) -> bool {
    matches!(b, b'0'..=b'9' | b'-' | b'+' | b'.')
}

// A number that a word can hold.
fn value_of(word: &[u8]) -> Option<u16> {
    let n = number_of(word).ok()?;
    u16::try_from(n).ok()
}

// What is said of a line that is no record: the file, the line's number, and what is wrong with it.
// Above it: the lines of a sheet. Below it: how the console speaks.
use pond_phrases::say;
use text::front;

// As much of a word as a line shows.
const MOST: usize = 40;

// Why a line cannot be taken: a field that is no number, so many numbers and not four, a record of a lower farm than the one before it, or one too many.
#[derive(Clone, Copy)]
pub enum Wrong<'a> {
    Field(&'a [u8]),
    Count(usize),
    Falls { before: u16, farm: u16 },
    TooMany,
}

// `cannot fill: farms.csv, line 7: ` and why.
pub fn complain(file: &[u8], line: u64, wrong: Wrong<'_>) {
    pond_say::text(b"cannot fill: ");
    pond_say::path(file);
    say(b", line #: ", &[line]);
    match wrong {
        Wrong::Field(word) => no_number(word),
        Wrong::Count(n) => say(
            b"it has # number%, and a record has four: farm, pond, day, concentration\n",
            &[n as u64, n as u64],
        ),
        Wrong::Falls { before, farm } => say(
            b"farm # stands behind farm #; the lines must be in the order of their farm numbers\n",
            &[u64::from(farm), u64::from(before)],
        ),
        Wrong::TooMany => {
            pond_say::text(b"it is record 8193, and an archive has room for 8192\n")
        }
    }
}

fn no_number(word: &[u8]) {
    if word.is_empty() {
        pond_say::text(
            b"a field is empty, and a record has four numbers: farm, pond, day, concentration\n",
        );
        return;
    }
    pond_say::path(front(word, MOST));
    if MOST < word.len() {
        pond_say::text(b"..");
    }
    pond_say::text(b" is no whole number from 0 to 65535\n");
}

// A line into the words of a command: runs of bytes that are not blank, or what stands between two quotes.
// Above it: the console. Below it: the tape.
ghost use Rattle.std.specs.Prelude.{◌≤◌, length};
ghost use Rattle.std.specs.Iterator.{at_most};

use pond_rows::Bytes;
use pond_say::Outcome;
use text::{blank, word};

// Why words cannot be followed, the gravest last: one is empty; a quote is opened and not closed; an argument is too long, of which it has been said.
#[derive(Clone, Copy, Debug, PartialEq, Eq, PartialOrd, Ord)]
pub enum Miscut {
    Hollow,
    Unclosed,
    TooLong,
}

// A word, and whether its quote is opened and not closed.
#[derive(Clone, Copy)]
struct Token<'a> {
    word: &'a [u8],
    unclosed: bool,
}

impl Token<'_> {
    // Why it cannot be followed.
    fn miscut(&self) -> Option<Miscut> {
        if self.unclosed {
            return Some(Miscut::Unclosed);
        }
        if self.word.is_empty() {
            Some(Miscut::Hollow)
        } else {
            None
        }
    }
}

// The words of what is left of a line, from the first on.
#[derive(Clone, Copy)]
struct Tokens<'a> {
    rest: &'a [u8],
}

impl<'a> Iterator for Tokens<'a> {
    type Item = Token<'a>;

    ghost remaining = { λ s. at_most (length s.rest.now) };

    fn next(&mut self) -> Option<Token<'a>> {
        let line = self.rest;
        let from = line.iter().position(|b| !blank(*b))?;
        let behind = &line[from + 1..];
        if line[from] == b'"' {
            return Some(self.quoted(behind));
        }
        let end = behind
            .iter()
            .position(|b| blank(*b))
            .unwrap_or(behind.len());
        self.rest = &behind[end..];
        Some(Token {
            word: &line[from..from + 1 + end],
            unclosed: false,
        })
    }
}

impl<'a> Tokens<'a> {
    // A word that begins behind a quote, and goes up to the next.
    fn quoted(&mut self, line: &'a [u8]) -> Token<'a>
        ensures { length self.new.rest.now ≤ length line.now }
    {
        match line.iter().position(|b| *b == b'"') {
            Some(end) => {
                self.rest = &line[end + 1..];
                Token {
                    word: &line[..end],
                    unclosed: false,
                }
            }
            None => {
                self.rest = &line[line.len()..];
                Token {
                    word: line,
                    unclosed: true,
                }
            }
        }
    }
}

// A line without words, or one that begins with #, is no command.
pub fn is_command(line: &[u8]) -> bool {
    !matches!(word(line, 0), [] | [b'#', ..])
}

// The words of a line onto the tape, and how many they are. More words than the tape has rows for are counted only.
pub fn words_of(line: &[u8], tape: &mut [Bytes]) -> Result<usize, Miscut> {
    pond_rows::empty(tape);
    let mut words = 0usize;
    let mut worst = None;
    for token in (Tokens { rest: line }) {
        pond_rows::put(tape, words, token.word);
        words = words.saturating_add(1);
        worst = worst.max(token.miscut());
    }
    match worst {
        Some(why) => Err(why),
        None => Ok(words),
    }
}

// What is said where the words cannot be followed.
pub fn wrong(why: Miscut) -> Outcome {
    match why {
        Miscut::Hollow => pond_say::text(b"cannot follow that: a word is empty\n"),
        Miscut::Unclosed => pond_say::text(
            b"cannot follow that: a quote is opened and not closed\n",
        ),
        Miscut::TooLong => {}
    }
    Outcome::Typing
}

// The forms of the commands, and what is said of words that are none of them.
// Above it: every command that reads words. Below it: how the console speaks.
use numbers::NoNumber;
use pond_rows::{Bytes, row};
use pond_say::{Console, Outcome};
use std::fmt;
use std::fmt::Write;
use text::same;

// A command's form. Those on a bench are the first, up to `Records`. What begins with `turn` is two commands, and `EitherTurn` stands for both.
#[derive(Clone, Copy, Debug, PartialEq, Eq, PartialOrd)]
pub enum Form {
    Map,
    Slots,
    Fill,
    Show,
    Close,
    Bench,
    Load,
    Turn,
    Save,
    Step,
    Open,
    Words,
    Shared,
    Archive,
    Records,
    Check,
    List,
    Run,
    Demo,
    Help,
    Version,
    Keep,
    Quit,
    TurnFile,
    EitherTurn,
}

// How the command is typed.
impl fmt::Display for Form {
    fn fmt<W: fmt::Write>(&self, f: &mut fmt::Formatter<W>) -> fmt::Result {
        f.write_str(match *self {
            Form::Map => "map",
            Form::Slots => "slots",
            Form::Fill => "fill FILE",
            Form::Show => "show SESSION",
            Form::Close => "close SESSION",
            Form::Bench => "bench N S or bench N records FILE",
            Form::Load => "load SLOT FILE",
            Form::Turn => "turn SESSION STEPS",
            Form::Save => "save SESSION FILE",
            Form::Step => "step SESSION [N]",
            Form::Open => {
                "open [NAME] SLOT WORDS, open [NAME] SLOT WORDS for FARM or open [NAME] SLOT WORDS window FIRST COUNT"
            }
            Form::Words => "words SESSION [FROM [COUNT]]",
            Form::Shared => "shared [FROM [COUNT]]",
            Form::Archive => "archive [FARM]",
            Form::Records => "records FILE",
            Form::Check => "check FILE",
            Form::List => "list FILE, list FILE routine K or list FILE near BYTE",
            Form::Run => "run FILE [WORDS [STEPS]] [with ARCHIVE [for FARM]]",
            Form::Demo => "demo",
            Form::Help => "help [COMMAND]",
            Form::Version => "--version",
            Form::Keep => "keep going or keep going always",
            Form::Quit => "quit or exit, and nothing more",
            Form::TurnFile => "turn FILE OUT",
            Form::EitherTurn => "turn SESSION STEPS or turn FILE OUT",
        })
    }
}

// A command on its tape: its form, and how many words stand behind its verb, which is word 0.
#[derive(Clone, Copy)]
pub struct Command<'a> {
    pub form: Form,
    pub tape: &'a [Bytes],
    pub n: u8,
}

// What a script goes on after: no failure, a report's fault, or any failure.
#[derive(Clone, Copy, Debug, PartialEq, Eq)]
pub enum Keep {
    Nothing,
    Faults,
    Failures,
}

// The form of the command on the tape, if its verb is one.
pub fn named(tape: &[Bytes]) -> Option<Form> {
    let form = match row(tape, 0) {
        b"map" => Form::Map,
        b"slots" => Form::Slots,
        b"fill" => Form::Fill,
        b"show" => Form::Show,
        b"close" => Form::Close,
        b"bench" => Form::Bench,
        b"load" => Form::Load,
        b"turn" => turn_of(row(tape, 1), row(tape, 2)),
        b"save" => Form::Save,
        b"step" => Form::Step,
        b"open" => Form::Open,
        b"words" => Form::Words,
        b"shared" => Form::Shared,
        b"archive" => Form::Archive,
        b"records" => Form::Records,
        b"check" => Form::Check,
        b"list" => Form::List,
        b"run" => Form::Run,
        b"demo" => Form::Demo,
        b"help" | b"--help" | b"-h" => Form::Help,
        b"--version" => Form::Version,
        b"keep" => Form::Keep,
        b"quit" | b"exit" => Form::Quit,
        _ => return None,
    };
    Some(form)
}

// `turn SESSION STEPS` is a command on the bench: one of its words is a number.
fn turn_of(first: &[u8], second: &[u8]) -> Form {
    if is_number(first) || is_number(second) {
        Form::Turn
    } else {
        Form::TurnFile
    }
}

// Whether a word is written as a number, even one past 64 bits.
pub fn is_number(word: &[u8]) -> bool {
    numbers::number_of(word) != Err(NoNumber::Not)
}

// Whether a command is one on a bench.
pub fn on_bench(form: Form) -> bool {
    form <= Form::Records
}

// Whether n words can stand behind the verb.
pub fn fits(form: Form, n: u8) -> bool {
    match form {
        Form::Map | Form::Slots | Form::Demo | Form::Version | Form::Quit => n == 0,
        Form::Fill | Form::Show | Form::Close | Form::Check | Form::Records => n == 1,
        Form::Load | Form::Turn | Form::Save | Form::TurnFile => n == 2,
        Form::Step => 1 <= n && n <= 2,
        Form::Bench => 2 <= n && n <= 3,
        Form::Open => 2 <= n && n <= 6,
        Form::Words => 1 <= n && n <= 3,
        Form::Shared => n <= 2,
        Form::Help | Form::Archive => n <= 1,
        Form::Run => 1 <= n && n <= 7,
        Form::List | Form::Keep | Form::EitherTurn => true,
    }
}

// Whether a word stands so many words before the last of a command, behind the verb.
pub fn stands(c: Command, before: u8, wanted: &[u8]) -> bool {
    before < c.n && same(row(c.tape, usize::from(c.n - before)), wanted)
}

// What a script goes on after behind these words of `keep`, if they can be followed.
pub fn keeps(tape: &[Bytes], n: u8) -> Option<Keep> {
    match (row(tape, 1), n, row(tape, 2)) {
        (b"going", 1, _) => Some(Keep::Faults),
        (b"going", 2, b"always") => Some(Keep::Failures),
        _ => None,
    }
}

pub fn expected(form: Form) -> Outcome {
    let mut out = Console;
    let _ = writeln!(out, "cannot follow that: expected {form}");
    Outcome::Typing
}

pub fn unknown(verb: &[u8]) -> Outcome {
    pond_say::text(b"cannot follow that: no command is called ");
    pond_say::path(verb);
    pond_say::text(b"; help lists them\n");
    Outcome::Typing
}

// The commands that need no bench by their forms, and which words each takes.
// Above it: the words of the shell, and the console. Below it: a function for each command, and the words of the commands.
use pond_parts::Part;
use pond_rows::{View, row};
use pond_run::Size;
use pond_say::Outcome;
use pond_words::forms::expected;
use pond_words::{Command, Form, Given, Keep, forms, numbers_at};

// Follows the command on the tape.
pub fn follow(rt: &HostRuntime, c: Command) -> Outcome {
    if !forms::fits(c.form, c.n) {
        return unfit(c);
    }
    let first = row(c.tape, 1);
    match c.form {
        Form::Check => pond_segments::check(rt, first),
        Form::List => list(rt, c),
        Form::TurnFile => pond_segments::turn(rt, first, row(c.tape, 2)),
        Form::Run => run(rt, c),
        Form::Help => help(first),
        Form::Keep => keep(c),
        Form::Demo => {
            pond_demo::demo(rt);
            Outcome::Done
        }
        Form::Version => {
            pond_say::text(b"pond 8, the console of Aithomedu\n");
            Outcome::Done
        }
        // Lines end at this word; as the program's only argument it does nothing.
        Form::Quit => Outcome::Done,
        _ => forms::unknown(row(c.tape, 0)),
    }
}

// Too few words for `turn FILE OUT` may be too few for a session's turn.
fn unfit(c: Command) -> Outcome {
    if c.form == Form::TurnFile && c.n < 2 {
        return expected(Form::EitherTurn);
    }
    expected(c.form)
}

fn help(command: &[u8]) -> Outcome {
    if pond_typed::help(command) {
        return Outcome::Done;
    }
    forms::unknown(command)
}

// All of a listing, or a part of it.
fn list(rt: &HostRuntime, c: Command) -> Outcome {
    let file = row(c.tape, 1);
    match (c.n, numbers::number_of(row(c.tape, 3)), row(c.tape, 2)) {
        (1, _, _) => pond_segments::list(rt, file),
        (3, Ok(k), b"routine") => pond_parts::list_part(rt, file, Part::Routine(k)),
        (3, Ok(k), b"near") => pond_parts::list_part(rt, file, Part::Near(k)),
        _ => expected(Form::List),
    }
}

// `run FILE [WORDS [STEPS]] [with ARCHIVE [for FARM]]`.
fn run(rt: &HostRuntime, c: Command) -> Outcome {
    let last = row(c.tape, usize::from(c.n));
    if with_at(c, 3) {
        return run_for(rt, c, last);
    }
    if with_at(c, 1) {
        return sized(rt, c, 3, last, View::All);
    }
    sized(rt, c, 1, b"", View::All)
}

// Whether `with` stands so many words before the last, behind FILE.
fn with_at(c: Command, before: u8) -> bool {
    2 <= c.n.saturating_sub(before) && forms::stands(c, before, b"with")
}

fn run_for(rt: &HostRuntime, c: Command, farm: &[u8]) -> Outcome {
    if !forms::stands(c, 1, b"for") {
        return expected(c.form);
    }
    let Some(farm) = pond_words::farm(farm, c.form) else {
        return Outcome::Typing;
    };
    let archive = row(c.tape, usize::from(c.n.saturating_sub(2)));
    sized(rt, c, 5, archive, View::Farm(farm))
}

// The same, where all but so many of the words are WORDS and STEPS.
fn sized(rt: &HostRuntime, c: Command, others: u8, archive: &[u8], view: View) -> Outcome {
    let count = c.n.saturating_sub(others);
    if 2 < count {
        return expected(c.form);
    }
    let size = match numbers_at(c.form, c.tape, 2, count) {
        Some(Given::Nothing) => Size::Usual,
        Some(Given::One(words)) => Size::Words(words),
        Some(Given::Two(words, steps)) => Size::Both(words, steps),
        None => return Outcome::Typing,
    };
    pond_run::run(rt, row(c.tape, 1), size, archive, view)
}

// What a script goes on after is kept by the console itself.
fn keep(c: Command) -> Outcome {
    match forms::keeps(c.tape, c.n) {
        None | Some(Keep::Nothing) => return expected(c.form),
        Some(Keep::Faults) => {
            pond_say::text(b"from here on a report's fault does not stop this script\n")
        }
        Some(Keep::Failures) => pond_say::text(b"from here on no failure stops this script\n"),
    }
    Outcome::Done
}

// A line of standard input as a command on the tape, and what is said of a line that is none.
// Above it: the console, which follows it. Below it: what is typed, and the words of the commands.
use pond_rows::Bytes;
use pond_say::Outcome;
use pond_typed::{Line, is_command};
use pond_words::{Form, Keep, forms};

// What a line says: nothing, where it has no words; what cannot be followed, of which it has been said; a command, by its form, where its verb is one, and with
// so many words behind the verb; or the input could not be read.
#[derive(Clone, Copy, Debug, PartialEq, Eq)]
pub enum Said {
    Nothing,
    Wrong,
    Command(Option<Form>, u8),
    Unread,
}

// What a line says; what a script goes on after behind it; and whether another line may follow.
#[derive(Clone, Copy)]
pub struct Heard {
    pub said: Said,
    pub keep: Keep,
    pub more: bool,
}

// Reads a line, and puts its words onto the tape. What is not typed is shown.
pub fn line(rt: &HostRuntime, typed: bool, tape: &mut [Bytes], keep: Keep) -> Heard {
    if typed {
        pond_say::text(b"> ");
    }
    let mut room = io::buffer();
    let read = pond_typed::read_line(rt, &mut room);
    if typed {
        pond_say::forget(rt);
    }
    let Some(line) = read else {
        return Heard {
            said: Said::Unread,
            keep,
            more: false,
        };
    };
    if !typed && !line.over {
        echo(line);
    }
    on_tape(line, tape, keep)
}

// What was read and not typed is shown before its answer, as a terminal would show it. The input's
// end is no line, and a line that is too long is not shown.
fn echo(line: Line) {
    if is_command(line.kept) {
        pond_say::text(b"> ");
    } else if line.kept.is_empty() && !line.more {
        return;
    }
    pond_say::path(line.kept);
    pond_say::end();
}

// The words of a line that was read onto the tape. Even of a line that is too long what it begins with says whether the lines end, and what a script goes on after.
fn on_tape(line: Line, tape: &mut [Bytes], keep: Keep) -> Heard {
    let words = words_of(line.kept, tape);
    let form = forms::named(tape);
    let quits = form == Some(Form::Quit) && words == Ok(1);
    let kept = match (form, words) {
        (Some(Form::Keep), Ok(n)) => forms::keeps(tape, behind(n)).unwrap_or(keep),
        _ => keep,
    };
    Heard {
        said: to_follow(line.over, form, words),
        keep: kept,
        more: line.more && !quits,
    }
}

// How many words the command has, and 0 where the line is none.
fn words_of(kept: &[u8], tape: &mut [Bytes]) -> Result<usize, Outcome> {
    if !is_command(kept) {
        return Ok(0);
    }
    pond_typed::words_of(kept, tape).map_err(|why| pond_typed::wrong(why))
}

// How many words stand behind the verb, and 200 where there are more.
pub fn behind(words: usize) -> u8 {
    words.saturating_sub(1).min(200) as u8
}

// A line that does not fit is not followed at all: a command that is cut short is another command.
fn to_follow(over: bool, form: Option<Form>, words: Result<usize, Outcome>) -> Said {
    if over {
        pond_say::text(
            b"cannot follow that: the line has more than 4096 bytes, and all of it is skipped\n",
        );
        return Said::Wrong;
    }
    match words {
        Ok(0) => Said::Nothing,
        Ok(n) => Said::Command(form, behind(n)),
        Err(_) => Said::Wrong,
    }
}

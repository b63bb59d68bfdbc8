// The program's arguments, which are words of the shell: one command, and none on a bench.
// Above it: the program. Below it: the commands that need no bench, and what is typed.
use crate::commands::follow;
use pond_lines::heard::behind;
use pond_rows::{Bytes, row};
use pond_say::Outcome;
use pond_typed::Miscut;
use pond_words::{Command, forms};

// The program's arguments are one command.
pub fn arguments(rt: &HostRuntime) {
    let mut tape = pond_rows::tape();
    let words = pond_typed::arguments(rt, &mut tape);
    let o = asked(rt, &tape, words);
    pond_say::leave(o);
}

fn asked(rt: &HostRuntime, tape: &[Bytes], words: Result<usize, Miscut>) -> Outcome {
    let n = match words {
        Ok(words) => behind(words),
        Err(why) => return pond_typed::wrong(why),
    };
    let verb = row(tape, 0);
    match forms::named(tape) {
        None => forms::unknown(verb),
        Some(form) if forms::on_bench(form) => no_bench(verb),
        Some(form) => follow(rt, Command { form, tape, n }),
    }
}

// A bench is the console's. A command on it that is given in the shell would find a new one, and leave nothing.
fn no_bench(verb: &[u8]) -> Outcome {
    pond_say::text(
        b"cannot follow that here: a bench lasts as long as the console. Start the console with no words and type ",
    );
    pond_say::path(verb);
    pond_say::text(b" there, or put the lines into a file: pond < FILE\n");
    Outcome::Typing
}

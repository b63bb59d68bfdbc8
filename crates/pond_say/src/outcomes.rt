// How a command went, and the status that the program leaves for it.
// Above it: every command, and the console, which stops a script at the first line that fails. Below it: nothing.
ghost use Rattle.std.specs.Prelude.{◌≤◌};

// From the least grave on. A fault is a report's; so is a run that did all its steps and is not finished. Typing is a line that cannot be followed. File is a
// file that cannot be read or written. Outside is Ctrl-C.
#[derive(Clone, Copy, PartialEq, Eq, PartialOrd, Ord)]
pub enum Outcome {
    Done,
    Fault,
    Refused,
    Typing,
    File,
    Outside,
}

// The status, which grows with how grave it is.
pub fn status(o: Outcome) -> u8
    ensures { result ≤ 4 }
{
    match o {
        Outcome::Done => 0,
        Outcome::Fault | Outcome::Refused => 1,
        Outcome::Typing => 2,
        Outcome::File => 3,
        Outcome::Outside => 4,
    }
}

// Whether the command did what it was asked.
pub fn went(o: Outcome) -> bool {
    o == Outcome::Done
}

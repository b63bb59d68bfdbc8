// What a command on a bench leaves: the bench, and how the command went.
// Above it: every command on a bench. Below it: nothing.
use pond_say::Outcome;
use sound::Bench;

#[derive(Clone, Copy)]
pub struct Next {
    pub bench: Bench,
    pub outcome: Outcome,
}

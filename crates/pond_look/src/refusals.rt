// Refusal 12 with what exactly was wrong: which slot, which session. Every other refusal is said by its rule.
// Above it: the commands on a bench. Below it: the rules, and how the console speaks.
use pond_say::Outcome;
use segment::Refusal;

const NO_SESSION: &[u8] = b"session # is not there: they have numbers 0 to 15";

const NO_SLOT: &[u8] = b"slot # is not there: they have numbers 0 to 15";

// A refused command on session i, which has to be open.
pub fn of_session(refusal: Refusal, i: u64) -> Outcome {
    refused(refusal, i, b"session # is not open", NO_SESSION)
}

// A refused command on slot i, which has to be loaded.
pub fn not_loaded(refusal: Refusal, i: u64) -> Outcome {
    refused(refusal, i, b"slot # is not loaded", NO_SLOT)
}

// A refused command on slot i, which may not be loaded.
pub fn is_loaded(refusal: Refusal, i: u64) -> Outcome {
    refused(refusal, i, b"slot # is loaded already", NO_SLOT)
}

// What is wrong with number i where it is there, and where it is not.
fn refused(refusal: Refusal, i: u64, there: &[u8], not_there: &[u8]) -> Outcome {
    if refusal != Refusal::NotThere {
        return pond_rules::refused(refusal);
    }
    pond_say::text(b"refused 12 at 0: ");
    pond_phrases::say(if i < 16 { there } else { not_there }, &[i]);
    pond_say::end();
    Outcome::Refused
}

// The refusals of document 01: for each number one plain sentence that names the rule which was broken.
// Above it: every command that can be refused. Below it: how the console speaks.
ghost use Rattle.std.specs.Prelude.{◌≡◌, Bool, ◌&&◌, leb};
ghost use Rattle.segment.specs.Refusals.{number_of};

use pond_say::Outcome;
use segment::Refusal;
use text::line;

// The last line of a command that was refused: `refused N at P: rule`.
pub fn refused(refusal: Refusal) -> Outcome {
    begun(refusal);
    pond_say::end();
    Outcome::Refused
}

// The same without its end, for a command that says more of it.
pub fn begun(refusal: Refusal) {
    pond_say::text(b"refused ");
    pond_say::number(refusal.number() as u64);
    pond_say::text(b" at ");
    if of_routine(refusal) {
        pond_say::text(b"routine ");
    }
    pond_say::number(refusal.place() as u64);
    pond_say::text(b": ");
    rule(refusal);
}

// The place of 6 to 8 is the routine's number.
fn of_routine(refusal: Refusal) -> bool
    ensures { result ≡ (leb 6 (number_of refusal) && leb (number_of refusal) 8) }
{
    match refusal {
        Refusal::Entry(_) | Refusal::Datasize(_) | Refusal::Exitic(_) => true,
        _ => false,
    }
}

// Which line of the page has the sentence, from line 0 up.
fn page_line(refusal: Refusal) -> u8 {
    match refusal {
        Refusal::NotArchive => 17,
        _ => refusal.number() - 1,
    }
}

fn rule(refusal: Refusal) {
    pond_say::text(line(
        b"a segment has an even number of bytes, and 16 to 32767 words\n\
          bytes 12 and 13 say the byte sex: 01 00 is least byte first, 00 01 most byte first\n\
          the relocation pointer, word 1, must be 0\n\
          the pool pointer, word 7, must be 0 or a word of the segment from word 11 on, and the pool's first word 0 or a pointer inside the pool\n\
          the dictionary must begin at word 11 or later, have 1 to 255 routines, and end inside the segment\n\
          its entry must be a word from 12 to the last but one, or 0 for a routine that is declared and not linked, which routine 1 never is\n\
          its DATASIZE must be below 32768; more would mean native code, which is not carried\n\
          its EXITIC must be a byte of the segment from byte 22 on\n\
          only a segment without a pool can be turned: its pool pointer, word 7, must be 0\n\
          the output must have room for the whole segment\n\
          the bench must be sound for the memory and the store that it is lent\n\
          slots and sessions have numbers 0 to 15; the slot must be loaded (for loading: not loaded), the session open\n\
          a session has 16 to 32768 words, and at least 6 more than the globals that DATASIZE of routine 1 asks; a window must lie inside the shared words\n\
          all 16 session records are in use\n\
          the memory has no gap of that many free words\n\
          a turn has at most 65535 steps\n\
          a segment must begin at an even byte and lie inside the store; a bench has at most 1048576 words, at most 32768 of them shared, and no more than there are\n\
          the shared words must be records of four words each, and farm numbers may never fall from one record to the next",
        page_line(refusal),
    ));
}

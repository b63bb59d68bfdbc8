// The archive, above the runner: a bench's shared words as records of four words, farm, pond, day and concentration. It is judged, a farm's records are
// found in it, and a session is opened for a farm that sees these and no others.
// Above: the program. Below: entry_open for the opening, sound_test for 11, and archive_records for what an archive is.
#![tactic(auto)]

ghost use Rattle.std.specs.Prelude.{◌≡◌};
ghost use Rattle.basis.specs.Checks.{ruling};
ghost use Rattle.segment.specs.Judge.{ruling_of};
ghost use Rattle.sound.specs.Bench.{world_of};
ghost use Rattle.entry.specs.Answer.{result_of};
ghost use Rattle.archive.specs.Archive.{archive_checks, found_of, range_answer, farm_open_of};

pub use archive_records::falls_at;
use archive_records::{is_accepted, range_in};
use entry::{Out, refuse};
use entry_open::open_window;
use segment::Refusal;
use sound::{Bench, Window};
use sound_test::is_sound;

// Whether the shared words are an archive. Refusals 11, 23.
pub fn accept(b: Bench, memory: &[u16], store: &[u8]) -> Result<(), Refusal>
    ensures { ruling_of result ≡ ruling (archive_checks store.now (world_of b memory.now)) }
{
    if !is_sound(b, memory, store) {
        return Err(Refusal::Unsound);
    }
    if !is_accepted(&memory[..b.s]) {
        return Err(Refusal::NotArchive);
    }
    Ok(())
}

// The farm's range of the shared words, empty at word 0 if it has no records. Refusals 11, 23.
pub fn range(b: Bench, memory: &[u16], store: &[u8], farm: u16) -> Result<Window, Refusal>
    ensures { found_of result ≡ range_answer store.now farm (world_of b memory.now) }
{
    match accept(b, memory, store) {
        Ok(()) => Ok(range_in(&memory[..b.s], farm)),
        Err(refusal) => Err(refusal),
    }
}

// A session of len words on a slot, which sees the farm's records. Refusals 11, 23, 12, 13, 14, 15.
pub fn open_farm(
    b: Bench,
    memory: &mut [u16],
    store: &[u8],
    slot: usize,
    len: usize,
    farm: u16,
) -> Out
    ensures { result_of result memory.new ≡ farm_open_of store.now slot len farm (world_of b memory.old) }
{
    match range(b, memory, store, farm) {
        Ok(window) => open_window(b, memory, store, slot, len, window),
        Err(refusal) => refuse(b, refusal),
    }
}

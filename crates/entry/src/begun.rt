// How a request to a slot or a session begins: 11, and then 12. A slot that is to be loaded, or a session that is to be open, is judged by its own
// record as `sound` reads it, which past the last is not loaded, or not used.
// Above: every entry but a new bench. Below: sound, and the test of soundness in sound_test.
ghost use Rattle.std.specs.Prelude.{◌≡◌, []};
ghost use Rattle.basis.specs.Checks.{ruling};
ghost use Rattle.segment.specs.Judge.{ruling_of};
ghost use Rattle.sound.specs.Bench.{world_of};
ghost use Rattle.entry.specs.Entries.{begins, free_slot};

use segment::Refusal;
use sound::Bench;
use sound_test::is_sound;

// Whether a slot passes 12 of a loading.
pub fn is_free(b: Bench, slot: usize) -> bool
    ensures { result ≡ free_slot (world_of b []) slot }
{
    slot <= 15 && !b.slots[slot].loaded
}

// 11, and then 12, where `named` says whether what the request names passes it.
pub fn guard(b: Bench, memory: &[u16], store: &[u8], named: bool) -> Result<(), Refusal>
    ensures { ruling_of result ≡ ruling (begins store.now (world_of b memory.now) named) }
{
    if !is_sound(b, memory, store) {
        return Err(Refusal::Unsound);
    }
    if !named {
        return Err(Refusal::NotThere);
    }
    Ok(())
}

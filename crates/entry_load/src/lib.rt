// Loading a slot with a part of the store.
// Above: `bench`, by which programs call it. Below: entry (the guard), sound, and checks for 1 to 8.
#![tactic(auto)]

ghost use Rattle.std.specs.Prelude.{◌≡◌, ◌≤◌, set};
ghost use Rattle.sound.specs.Bench.{world_of, at_slots};
ghost use Rattle.entry.specs.Answer.{result_of};
ghost use Rattle.entry.specs.Entries.{range_ok, load_of};

use bounds::{both, code_of, ends_by};
use entry::{Out, guard, is_free, refuse};
use segment::Refusal;
use sound::{Bench, Slot};

fn range_ok(store: &[u8], start: usize, len: usize) -> bool
    ensures { result ≡ range_ok store.now start len }
{
    both(start % 2 == 0, ends_by(start, len, store.len()))
}

fn with_slot(b: Bench, i: usize, sl: Slot) -> Bench
    requires { i ≤ 15 }
    ensures { result ≡ at_slots b (set b.slots i sl) }
{
    let mut out = b;
    out.slots[i] = sl;
    out
}

// What is told of a segment that is refused: the refusal as it is, with its number, and of 6 to 8 the routine's.
fn as_it_is(fault: Refusal) -> Refusal
    ensures { result ≡ fault }
{
    fault
}

// Slot `slot` with the len bytes of the store from start on. Refusals 11, 12, 17, then 1 to 8.
pub fn load(b: Bench, memory: &[u16], store: &[u8], slot: usize, start: usize, len: usize) -> Out
    ensures { result_of result memory.now ≡ load_of store.now slot start len (world_of b memory.now) }
{
    if let Err(refusal) = guard(b, memory, store, is_free(b, slot)) {
        return refuse(b, refusal);
    }
    if !range_ok(store, start, len) {
        return refuse(b, Refusal::Limits);
    }
    if let Err(fault) = checks::judge(code_of(store, start, len)) {
        return refuse(b, as_it_is(fault));
    }
    let sl = Slot {
        loaded: true,
        start,
        len,
    };
    Out {
        answer: Ok(0),
        bench: with_slot(b, slot, sl),
    }
}

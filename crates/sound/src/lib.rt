// What a bench holds, by value: slots, session records, and the limits of its memory. specs/Sound says when it is sound.
// Above: sound_regions and sound_test, which test that, and the entries of the bench. Below: session, for registers.
#![tactic(auto)]

ghost use Rattle.std.specs.Prelude.{◌≡◌, get_or};
ghost use Rattle.sound.specs.Bench.{no_slot, no_session, slot_at, fresh, at_cpu};
ghost use Rattle.sound.specs.Sound.{limits_ok};

use bounds::{at_most, both};
use machine::Cpu;
use session::no_cpu;

// A part of the store: len bytes from start on. Kept: `loaded` and `used` beside numbers, and no Option, since a caller lends any numbers there, and
// the contracts of no_slot and no_session, with the edits no_slot_elsewhere, no_session_elsewhere and no_session_sees, say which an empty one has.
#[derive(Clone, Copy)]
pub struct Slot {
    pub loaded: bool,
    pub start: usize,
    pub len: usize,
}

// The shared words that a session sees, at 32,768 onward: len of them, from word first on.
#[derive(Clone, Copy)]
pub struct Window {
    pub first: usize,
    pub len: usize,
}

// The slot that the session runs, its region (len words from base on), its window of the shared words, and its registers and kind.
#[derive(Clone, Copy)]
pub struct Session {
    pub used: bool,
    pub slot: usize,
    pub base: usize,
    pub len: usize,
    pub window: Window,
    pub cpu: Cpu,
}

impl Session {
    // The record of a session that was opened on a slot, with the len words from base on and this window, at these registers.
    pub fn fresh(slot: usize, base: usize, len: usize, window: Window, cpu: Cpu) -> Self
        ensures { result ≡ fresh slot base len window cpu }
    {
        Session {
            used: true,
            slot,
            base,
            len,
            window,
            cpu,
        }
    }

    // The record at other registers: slot, region and window stay.
    pub fn at(self, cpu: Cpu) -> Self
        ensures { result ≡ at_cpu self cpu }
    {
        Session { cpu, ..self }
    }
}

// For a memory of n words, the first s of them shared.
#[derive(Clone, Copy)]
pub struct Bench {
    pub n: usize,
    pub s: usize,
    pub slots: [Slot; 16],
    pub sessions: [Session; 16],
}

// A slot that is not loaded.
pub fn no_slot() -> Slot
    ensures { result ≡ no_slot }
{
    Slot {
        loaded: false,
        start: 0,
        len: 0,
    }
}

// A record that is not used.
pub fn no_session() -> Session
    ensures { result ≡ no_session }
{
    Session {
        used: false,
        slot: 0,
        base: 0,
        len: 0,
        window: Window { first: 0, len: 0 },
        cpu: no_cpu(),
    }
}

// Slot i; past the last, one that is not loaded.
pub fn slot_at(b: Bench, i: usize) -> Slot
    ensures { result ≡ slot_at b.slots i }
{
    if 15 < i {
        return no_slot();
    }
    b.slots[i]
}

// Session record i; past the last, one that is not used.
pub fn session_at(b: Bench, i: usize) -> Session
    ensures { result ≡ get_or b.sessions i no_session }
{
    if 15 < i {
        return no_session();
    }
    b.sessions[i]
}

// Whether n words, s of them shared, keep their limits.
pub fn limits_ok(n: usize, s: usize) -> bool
    ensures { result ≡ limits_ok n s }
{
    both(at_most(n, 1048576), both(at_most(s, 32768), at_most(s, n)))
}

// What is told of recorded faults that no command of `pond` makes, and that a caller of the library can have in a bench: fault 1 at the place that it
// had before request 8, fault 2 of an instruction that is carried since request 2, and records that the session's own numbers do not give. `stdout` holds the words.
// Below it: `pond_why`, as for `show`.
#![tactic(auto)]

use machine::{Cpu, Kind};
use plan::Regs;
use pond_rows::View;
use pond_why::faults;
use pond_windows::Seen;
use sound::{Bench, Session, Window};

// The small segment of document 01, but for its code: 87 80 at byte 30, which is LDL and the first byte of a B of two bytes, at the segment's end.
const STORE: [u8; 32] = [
    11, 0, 0, 0, 80, 79, 78, 68, 32, 32, 32, 32, 1, 0, 0, 0, 2, 0, 0, 0, 0, 0, 1, 0, 14, 0, 30, 0,
    0, 0, 135, 128,
];

fn main() {
    let memory = [0u16; 20];
    let store = STORE;
    let made = bench::new_bench(20, 4);
    let loaded = bench::load(made.bench, &memory, &store, 0, 0, 32);
    let b = loaded.bench;
    pond_say::text(b"where the bytes ran out:\n");
    told(b, &memory, &store, 1, 32);
    pond_say::text(
        b"the same fault, recorded before request 8 with the instruction's first byte:\n",
    );
    told(b, &memory, &store, 1, 30);
    pond_say::text(b"at a place that is neither:\n");
    told(b, &memory, &store, 1, 31);
    pond_say::text(b"another fault than the numbers give:\n");
    told(b, &memory, &store, 6, 30);
    older(b, &memory);
    pond_say::text(b"a number that is no fault's:\n");
    told(b, &memory, &store, 11, 30);
}

// The same segment with a case jump at byte 30, XJP 1, which was not carried before request 2.
fn older(b: Bench, memory: &[u16]) {
    let mut store = STORE;
    store[30] = 214;
    store[31] = 1;
    pond_say::text(b"a case jump that was not carried then:\n");
    told(b, memory, &store, 2, 30);
}

// What `show` tells of a session that stands at byte 30, with this fault recorded.
fn told(b: Bench, memory: &[u16], store: &[u8], number: u8, place: usize) {
    let se = recorded(number, place);
    faults::instruction(b, store, se);
    faults::reason(b, memory, store, se, all_shared());
}

// The session sees all four shared words.
fn all_shared() -> Seen {
    Seen {
        view: View::All,
        window: Window { first: 0, len: 4 },
    }
}

fn recorded(number: u8, place: usize) -> Session {
    let kind = Kind::Faulted(number, place);
    let regs = Regs {
        sp: 16,
        m: 1,
        counter: 30,
        routine: 1,
        lowest: 16,
    };
    let window = Window { first: 0, len: 4 };
    Session::fresh(0, 4, 16, window, Cpu { kind, regs })
}

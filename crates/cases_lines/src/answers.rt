// The answer of an entry of the bench: what it says, the registers after a turn, and the digests of all that it could change.
// Above it: the requests. Below it: digests, and how a line is told.
use crate::digest;
use crate::tell::tell;
use bench::Refusal;
use machine::{Cpu, Kind};
use sound::{Bench, Session, Slot};

// Told of a request: what it answered, and after a turn the registers of the session that was turned.
pub fn told(answer: Result<u32, Refusal>, turned: Option<Cpu>, b: Bench, memory: &[u16]) {
    let d = [of_bench(b), digest::of(memory)];
    match answer {
        Err(refusal) => {
            tell(
                b'r',
                &[u64::from(refusal.number()), u64::from(refusal.place())],
                &d,
            );
        }
        Ok(value) => {
            done(u64::from(value), turned, d);
        }
    }
}

fn done(value: u64, turned: Option<Cpu>, d: [u64; 2]) {
    match turned {
        Some(cpu) => {
            let [sp, m, counter, routine, lowest, kind, fault, place] = numbers_of(cpu);
            let n = [value, sp, m, counter, routine, lowest, kind, fault, place];
            tell(b'd', &n, &d);
        }
        None => {
            tell(b'd', &[value], &d);
        }
    }
}

// The numbers of a line that sets registers and a kind, in its order. Only a faulted session has a fault and a place.
fn numbers_of(cpu: Cpu) -> [u64; 8] {
    let r = cpu.regs;
    let (number, fault, place) = match cpu.kind {
        Kind::Ready => (0, 0, 0),
        Kind::Finished => (1, 0, 0),
        Kind::Faulted(f, p) => (2, u64::from(f), p as u64),
    };
    [
        r.sp as u64,
        r.m as u64,
        r.counter as u64,
        r.routine as u64,
        r.lowest as u64,
        number,
        fault,
        place,
    ]
}

// A digest after the numbers of a part of a bench.
fn taken(h: u64, numbers: &[u64]) -> u64 {
    numbers.iter().fold(h, |d, x| digest::both_halves(d, *x))
}

// The digest of every number of a bench.
fn of_bench(b: Bench) -> u64 {
    let h = taken(0, &[b.n as u64, b.s as u64]);
    let d = b.slots.iter().fold(h, |d, sl| of_slot(d, *sl));
    b.sessions.iter().fold(d, |d, se| of_session(d, *se))
}

fn of_slot(h: u64, sl: Slot) -> u64 {
    taken(h, &[u64::from(sl.loaded), sl.start as u64, sl.len as u64])
}

fn of_session(h: u64, se: Session) -> u64 {
    let window = se.window;
    let region = [
        u64::from(se.used),
        se.slot as u64,
        se.base as u64,
        se.len as u64,
        window.first as u64,
        window.len as u64,
    ];
    taken(taken(h, &region), &numbers_of(se.cpu))
}

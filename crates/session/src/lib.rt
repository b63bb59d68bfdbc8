// A session on a loaded segment: which registers are sound, how it starts, and its turn in a memory that holds all regions.
// Above: the bench, which knows of segments and the machine by this crate alone; below: `machine` and `segment`.
#![tactic(auto)]

ghost use Rattle.std.specs.Prelude.{◌≡◌, true, ◌+◌, ◌-◌, ◌≤◌, length};
ghost use Rattle.segment.specs.Judge.{judged};
ghost use Rattle.basis.specs.Checks.{passed};
ghost use Rattle.pmachine.specs.State.{ready};
ghost use Rattle.session.specs.Session.{cpu_from, no_cpu, start_of, kind_ok, cpu_ok, RanTo};

use bounds::{at_most, both, ends_by};
use machine::{Cpu, Kind, Turned};
use plan::Regs;

// A session that is ready, at these registers: the one place of this crate that builds them.
fn ready_at(sp: usize, m: usize, counter: usize, routine: usize, lowest: usize) -> Cpu
    ensures { result ≡ cpu_from (record { sp = sp; m = m; counter = counter; routine = routine; lowest = lowest }) ready }
{
    Cpu {
        kind: Kind::Ready,
        regs: Regs {
            sp,
            m,
            counter,
            routine,
            lowest,
        },
    }
}

// The registers of a record that is not used.
pub fn no_cpu() -> Cpu
    ensures { result ≡ no_cpu }
{
    ready_at(0, 0, 0, 0, 0)
}

// The registers of a session that has just been opened, with len words.
pub fn start_cpu(code: &[u8], len: usize) -> Cpu
    ensures { result ≡ start_of code.now len }
{
    let first = segment::routine_of(code, 1);
    ready_at(len, 1, first.start as usize, 1, len)
}

fn kind_ok(code: &[u8], k: Kind) -> bool
    ensures { result ≡ kind_ok code.now k }
{
    match k {
        Kind::Ready | Kind::Finished => true,
        Kind::Faulted(f, p) => both(
            at_most(1, f as usize),
            both(
                at_most(f as usize, 10),
                both(at_most(22, p), at_most(p, code.len())),
            ),
        ),
    }
}

// Whether these are registers of a sound session with len words. Any numbers may stand in them, so no sum is made of them here.
pub fn cpu_ok(code: &[u8], len: usize, c: Cpu) -> bool
    ensures { result ≡ cpu_ok code.now len c }
{
    let low = segment::floor(code) as usize;
    let head = segment::head(code);
    let Regs {
        sp,
        m,
        counter,
        routine,
        lowest,
    } = c.regs;
    let h = both(at_most(lowest, sp), kind_ok(code, c.kind));
    let g = both(
        at_most(routine, head.count as usize),
        both(at_most(low, lowest), h),
    );
    let f = both(at_most(counter, code.len()), both(at_most(1, routine), g));
    let e = both(ends_by(m, 5, len), both(at_most(22, counter), f));
    let d = both(at_most(sp, len), both(at_most(1, m), e));
    both(at_most(low, len), both(at_most(low, sp), d))
}

// Up to k steps of the session whose region is the words from base up to end, and whose window is the `seen` words from the first on. The machine is
// lent no more than the words from the window's first up to the region's end: so the window's words are the first of what it is lent.
pub fn run(
    code: &[u8],
    memory: &mut [u16],
    first: usize,
    seen: usize,
    base: usize,
    end: usize,
    cpu: Cpu,
    k: usize,
) -> Turned
    requires code_value { judged code.now ≡ passed }
    requires cpu_value { cpu_ok code.now (end - base) cpu ≡ true }
    requires base_bound { (end - base ≤ 32768) × (seen ≤ 32768) × (first + seen ≤ base) × (base ≤ end) × (end ≤ length memory.old) }
    ensures { RanTo code.now memory.old first seen base end k cpu result memory.new }
{
    let at = base - first;
    let top = end - first;
    machine::turn(&mut memory[first..end], at, top, seen, code, cpu, k)
}

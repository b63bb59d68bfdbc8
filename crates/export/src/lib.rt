// The machine's turn under a C name, so that speed/ can time the proved code beside its baselines. Nothing else calls it.
// Below: `machine`. The caller meets what is required, as the bench does; registers, kind, fault and place come back in `after`.
#![tactic(auto)]

ghost use Rattle.std.specs.Prelude.{◌-◌, length};
ghost use Rattle.pmachine.specs.Sound.{Loaded, Ranged};
ghost use Rattle.plan.specs.Answer.{regs_of};
ghost use Rattle.steps.specs.Memory.{Placed};

use machine::{Cpu, Kind};
use plan::Regs;

// The registers and the kind as the eight numbers of the C interface: 0, 1 or 2 for ready, finished and faulted.
fn told(q: Cpu, after: &mut [u64; 8]) {
    let g = q.regs;
    after[0] = g.sp as u64;
    after[1] = g.m as u64;
    after[2] = g.counter as u64;
    after[3] = g.routine as u64;
    after[4] = g.lowest as u64;
    match q.kind {
        Kind::Ready => {
            after[5] = 0;
        }
        Kind::Finished => {
            after[5] = 1;
        }
        Kind::Faulted(n, place) => {
            after[5] = 2;
            after[6] = u64::from(n);
            after[7] = place as u64;
        }
    }
}

fn turn_from(
    mem: &mut [u16],
    at: usize,
    end: usize,
    s: usize,
    seg: &[u8],
    regs: Regs,
    after: &mut [u64; 8],
    k: usize,
) -> usize
    requires placed { Placed (length mem.old) at end s }
    requires loaded { Loaded seg.now }
    requires ranged { Ranged seg.now (end - at) (regs_of regs) }
{
    let t = machine::turn(
        mem,
        at,
        end,
        s,
        seg,
        Cpu {
            kind: Kind::Ready,
            regs,
        },
        k,
    );
    told(t.cpu, after);
    t.done
}

#[unsafe(no_mangle)]
pub extern "C" fn pm_turn(
    mem: &mut [u16],
    at: usize,
    end: usize,
    s: usize,
    seg: &[u8],
    sp: usize,
    m: usize,
    counter: usize,
    routine: usize,
    lowest: usize,
    after: &mut [u64; 8],
    k: usize,
) -> usize
    requires placed { Placed (length mem.old) at end s }
    requires loaded { Loaded seg.now }
    requires ranged { Ranged seg.now (end - at) (record { sp = sp; m = m; counter = counter; routine = routine; lowest = lowest }) }
{
    turn_from(
        mem,
        at,
        end,
        s,
        seg,
        Regs {
            sp,
            m,
            counter,
            routine,
            lowest,
        },
        after,
        k,
    )
}

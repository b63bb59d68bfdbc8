// The judgement of a step: the one fault, or what changes. It only reads.
// Above: `machine`, which writes what is planned; below: `plan_stack`, `plan_places`, `plan_calls` and `plan_pool`, what each
// meaning comes to, and `operand`, by which each arm fetches its own.
#![tactic(auto)]

ghost use Rattle.std.specs.Prelude.{◌≡◌, ◌+◌, ◌≤◌, length};
ghost use Rattle.pmachine.specs.Opcode.{opcode};
ghost use Rattle.pmachine.specs.Decoding.{row_decoded};
ghost use Rattle.pmachine.specs.Step.{judged_by, judge as Step·judge};
ghost use Rattle.plan.specs.Answer.{regs_of, outcome_of};
ghost use Rattle.plan.specs.Told.{Ready};
ghost use Rattle.judge.specs.First.{first_of};

use operand::Operand;
use plan::{Binary, Division, Facts, Planned, Regs, Unary, push, word_of};
use plan_calls::{branch, call, enter, give_back, jump, reach};
use plan_places::{address, index, load, pool_offset, store, store_at};
use plan_pool::{block, case_at, choose, words_at};
use plan_stack::{check_range, divide, duplicate, one_word, swap, two_words};

// The first byte of an instruction, or no byte of the code. Kept, and no Option: document 01 names the form `let Decoded(..) = decode else fault`.
#[derive(Clone, Copy)]
enum Byte {
    Decoded(u8),
    Outside,
}

// The greatest number of links that a DB tells; one above it faults with 2.
const DEEPEST: u16 = 127;

// What the instruction of a first byte does, whose operands stand at `at`. One flat match, one arm a byte or a short range: a match in a
// match would be a second jump at every step. docs/PERFORMANCE.md says what keeps the answer of an arm's call out of memory.
fn act(
    seg: &[u8],
    facts: Facts,
    region: &[u16],
    shared: &[u16],
    r: Regs,
    op: u8,
    at: usize,
) -> Planned
    requires { (Ready seg.now facts shared.now region.now r) × (at ≤ length seg.now) }
    ensures { outcome_of seg.now r result ≡ judged_by seg.now shared.now region.now (regs_of r) (row_decoded (opcode op) seg.now at) }
{
    match op {
        // SLDC
        0..=31 => push(facts.floor, r, at, op as u16),
        // SLDL
        32..=47 => load(region, facts.floor, r, r.m, (op - 31) as u16, at),
        // SLDO
        48..=63 => load(region, facts.floor, r, 1, (op - 47) as u16, at),
        // SLLA
        96..=103 => address(region, facts.floor, r, r.m, (op - 95) as u16, at),
        // SSTL
        104..=111 => store(region, r, r.m, (op - 103) as u16, at),
        // SIND
        120..=127 => index(region, shared, r, (op - 120) as u16, at),
        // LDCB
        128 => {
            let Ok(Operand { value: a, next }) = operand::unsigned(seg, at) else {
                return Planned::Bad(1);
            };
            push(facts.floor, r, next, a)
        }
        // LDCI
        129 => {
            let Ok(Operand { value: a, next }) = operand::wide(seg, at) else {
                return Planned::Bad(1);
            };
            push(facts.floor, r, next, a)
        }
        // LCO
        130 => {
            let Ok(Operand { value: a, next }) = operand::big(seg, at) else {
                return Planned::Bad(1);
            };
            pool_offset(seg.len() / 2, facts.pool, facts.floor, r, next, a)
        }
        // LLA
        132 => {
            let Ok(Operand { value: a, next }) = operand::big(seg, at) else {
                return Planned::Bad(1);
            };
            address(region, facts.floor, r, r.m, a, next)
        }
        // LDO
        133 => {
            let Ok(Operand { value: a, next }) = operand::big(seg, at) else {
                return Planned::Bad(1);
            };
            load(region, facts.floor, r, 1, a, next)
        }
        // LAO
        134 => {
            let Ok(Operand { value: a, next }) = operand::big(seg, at) else {
                return Planned::Bad(1);
            };
            address(region, facts.floor, r, 1, a, next)
        }
        // LDL
        135 => {
            let Ok(Operand { value: a, next }) = operand::big(seg, at) else {
                return Planned::Bad(1);
            };
            load(region, facts.floor, r, r.m, a, next)
        }
        // LDA
        136 => {
            let Ok(
                Operand {
                    value: d,
                    next: mid,
                },
            ) = operand::unsigned(seg, at)
            else {
                return Planned::Bad(1);
            };
            let Ok(Operand { value: a, next }) = operand::big(seg, mid) else {
                return Planned::Bad(1);
            };
            if DEEPEST < d {
                return Planned::Bad(2);
            }
            let Some(rec) = reach(region, r.m, d) else {
                return Planned::Bad(9);
            };
            address(region, facts.floor, r, rec, a, next)
        }
        // LOD
        137 => {
            let Ok(
                Operand {
                    value: d,
                    next: mid,
                },
            ) = operand::unsigned(seg, at)
            else {
                return Planned::Bad(1);
            };
            let Ok(Operand { value: a, next }) = operand::big(seg, mid) else {
                return Planned::Bad(1);
            };
            if DEEPEST < d {
                return Planned::Bad(2);
            }
            let Some(rec) = reach(region, r.m, d) else {
                return Planned::Bad(9);
            };
            load(region, facts.floor, r, rec, a, next)
        }
        // UJP
        138 => {
            let Ok(Operand { value: a, next }) = operand::signed(seg, at) else {
                return Planned::Bad(1);
            };
            jump(seg.len(), r, r.sp, next, a)
        }
        // JPL
        139 => {
            let Ok(Operand { value: a, next }) = operand::wide(seg, at) else {
                return Planned::Bad(1);
            };
            jump(seg.len(), r, r.sp, next, a)
        }
        // MPI
        140 => two_words(region, r, at, Binary::Mpi),
        // DVI
        141 => divide(region, r, at, Division::Dvi),
        // MODI
        143 => divide(region, r, at, Division::Modi),
        // CPL
        144 => {
            let Ok(Operand { value: a, next }) = operand::unsigned(seg, at) else {
                return Planned::Bad(1);
            };
            call(r, a, r.m, next, enter(seg, facts, r.sp, a))
        }
        // CPG
        145 => {
            let Ok(Operand { value: a, next }) = operand::unsigned(seg, at) else {
                return Planned::Bad(1);
            };
            call(r, a, 1, next, enter(seg, facts, r.sp, a))
        }
        // CPI
        146 => {
            let Ok(
                Operand {
                    value: d,
                    next: mid,
                },
            ) = operand::unsigned(seg, at)
            else {
                return Planned::Bad(1);
            };
            let Ok(Operand { value: a, next }) = operand::unsigned(seg, mid) else {
                return Planned::Bad(1);
            };
            if DEEPEST < d {
                return Planned::Bad(2);
            }
            let Some(rec) = reach(region, r.m, d) else {
                return Planned::Bad(9);
            };
            call(r, a, rec, next, enter(seg, facts, r.sp, a))
        }
        // RPU
        150 => {
            let Ok(Operand { value: a, next: _ }) = operand::big(seg, at) else {
                return Planned::Bad(1);
            };
            give_back(seg.len(), facts, region, r, a)
        }
        // LDCN: NIL is 0
        152 => push(facts.floor, r, at, 0),
        // NOP
        156 => Planned::Move(r.sp, at),
        // LOR
        160 => two_words(region, r, at, Binary::Lor),
        // LAND
        161 => two_words(region, r, at, Binary::Land),
        // ADI
        162 => two_words(region, r, at, Binary::Adi),
        // SBI
        163 => two_words(region, r, at, Binary::Sbi),
        // STL
        164 => {
            let Ok(Operand { value: a, next }) = operand::big(seg, at) else {
                return Planned::Bad(1);
            };
            store(region, r, r.m, a, next)
        }
        // SRO
        165 => {
            let Ok(Operand { value: a, next }) = operand::big(seg, at) else {
                return Planned::Bad(1);
            };
            store(region, r, 1, a, next)
        }
        // STR
        166 => {
            let Ok(
                Operand {
                    value: d,
                    next: mid,
                },
            ) = operand::unsigned(seg, at)
            else {
                return Planned::Bad(1);
            };
            let Ok(Operand { value: a, next }) = operand::big(seg, mid) else {
                return Planned::Bad(1);
            };
            if DEEPEST < d {
                return Planned::Bad(2);
            }
            if region.len() < r.sp + 1 {
                return Planned::Bad(3);
            }
            let Some(rec) = reach(region, r.m, d) else {
                return Planned::Bad(9);
            };
            store(region, r, rec, a, next)
        }
        // SLOD1
        173 => {
            let Ok(Operand { value: a, next }) = operand::big(seg, at) else {
                return Planned::Bad(1);
            };
            let Some(rec) = reach(region, r.m, 1) else {
                return Planned::Bad(9);
            };
            load(region, facts.floor, r, rec, a, next)
        }
        // SLOD2
        174 => {
            let Ok(Operand { value: a, next }) = operand::big(seg, at) else {
                return Planned::Bad(1);
            };
            let Some(rec) = reach(region, r.m, 2) else {
                return Planned::Bad(9);
            };
            load(region, facts.floor, r, rec, a, next)
        }
        // EQUI
        176 => two_words(region, r, at, Binary::Equi),
        // NEQI
        177 => two_words(region, r, at, Binary::Neqi),
        // LEQI
        178 => two_words(region, r, at, Binary::Leqi),
        // GEQI
        179 => two_words(region, r, at, Binary::Geqi),
        // LEUSW
        180 => two_words(region, r, at, Binary::Leusw),
        // GEUSW
        181 => two_words(region, r, at, Binary::Geusw),
        // SWAP
        189 => swap(region, r, at),
        // STO
        196 => store_at(region, r, at),
        // CHK
        203 => check_range(region, r, at),
        // FJP
        212 => {
            let Ok(Operand { value: a, next }) = operand::signed(seg, at) else {
                return Planned::Bad(1);
            };
            if region.len() < r.sp + 1 {
                return Planned::Bad(3);
            }
            branch(region, seg.len(), r, 0, next, a)
        }
        // FJPL
        213 => {
            let Ok(Operand { value: a, next }) = operand::wide(seg, at) else {
                return Planned::Bad(1);
            };
            if region.len() < r.sp + 1 {
                return Planned::Bad(3);
            }
            branch(region, seg.len(), r, 0, next, a)
        }
        // ABI
        224 => one_word(region, r, at, Unary::Abi),
        // NGI
        225 => one_word(region, r, at, Unary::Ngi),
        // DUP1
        226 => duplicate(region, facts.floor, r, at),
        // LNOT
        229 => one_word(region, r, at, Unary::Lnot),
        // IND
        230 => {
            let Ok(Operand { value: a, next }) = operand::big(seg, at) else {
                return Planned::Bad(1);
            };
            index(region, shared, r, a, next)
        }
        // INCI
        237 => one_word(region, r, at, Unary::Inci),
        // DECI
        238 => one_word(region, r, at, Unary::Deci),
        // SCPI1
        239 => {
            let Ok(Operand { value: a, next }) = operand::unsigned(seg, at) else {
                return Planned::Bad(1);
            };
            let Some(rec) = reach(region, r.m, 1) else {
                return Planned::Bad(9);
            };
            call(r, a, rec, next, enter(seg, facts, r.sp, a))
        }
        // SCPI2
        240 => {
            let Ok(Operand { value: a, next }) = operand::unsigned(seg, at) else {
                return Planned::Bad(1);
            };
            let Some(rec) = reach(region, r.m, 2) else {
                return Planned::Bad(9);
            };
            call(r, a, rec, next, enter(seg, facts, r.sp, a))
        }
        // TJP
        241 => {
            let Ok(Operand { value: a, next }) = operand::signed(seg, at) else {
                return Planned::Bad(1);
            };
            if region.len() < r.sp + 1 {
                return Planned::Bad(3);
            }
            branch(region, seg.len(), r, 1, next, a)
        }
        // LDC
        131 => {
            let Ok(
                Operand {
                    value: mode,
                    next: mid,
                },
            ) = operand::unsigned(seg, at)
            else {
                return Planned::Bad(1);
            };
            let Ok(
                Operand {
                    value: b,
                    next: late,
                },
            ) = operand::big(seg, mid)
            else {
                return Planned::Bad(1);
            };
            let Ok(Operand { value: n, next }) = operand::unsigned(seg, late) else {
                return Planned::Bad(1);
            };
            block(facts.sex, mode, r, n, next, words_at(facts, r.sp, b, n))
        }
        // XJP
        214 => {
            let Ok(Operand { value: b, next }) = operand::big(seg, at) else {
                return Planned::Bad(1);
            };
            if region.len() < r.sp + 1 {
                return Planned::Bad(3);
            }
            choose(
                seg.len(),
                r,
                next,
                case_at(seg, facts, word_of(region, r.sp), b),
            )
        }
        _ => Planned::Bad(2),
    }
}

// The first byte at the counter, or no byte of the code. That a counter is 22 or more is what every step keeps.
fn decode(seg: &[u8], at: usize) -> Byte
    requires { 22 ≤ at }
    ensures { result ≡ first_of seg.now at }
{
    if seg.len() <= at {
        return Byte::Outside;
    }
    Byte::Decoded(seg[at])
}

// What the next step does: the first byte is judged for 1 and 2, then its operands are fetched and the rest is judged in order. Fault 2 is
// the last arm of `act`, which fetches nothing.
pub fn judge(seg: &[u8], facts: Facts, region: &[u16], shared: &[u16], r: Regs) -> Planned
    requires { Ready seg.now facts shared.now region.now r }
    ensures { outcome_of seg.now r result ≡ Step·judge seg.now shared.now region.now (regs_of r) }
{
    let Byte::Decoded(op) = decode(seg, r.counter) else {
        return Planned::Bad(1);
    };
    act(seg, facts, region, shared, r, op, r.counter + 1)
}

// The first check that fails, in document 01's order: 1 and 2 of the first byte, its operands, 3, what its meaning asks (9, 8, 5, 6, 7, 10),
// and 4. Nothing here prints. Above it: `pond_why`. Below it: places, flow, tables and stack, a check each.
use crate::meaning::Does;
use crate::numbers::{Numbers, is_outside, less, narrow, word};
use crate::why::{Code, Why};
use crate::{flow, meaning, places, stack, tables};
use instruction::Instruction;

pub fn first_failing(seg: &[u8], region: &[u16], n: Numbers) -> Result<(), Why> {
    if is_outside(n.counter as usize, 22, less(n.code as usize, 1)) {
        return Err(Why::Code(Code::Begins));
    }
    let i = instruction::read(seg, n.counter as usize);
    fetched(i)?;
    of_words(seg, region, n, i, meaning::of(i))
}

// The instruction is carried, whole, and its DB lawful.
fn fetched(i: Instruction) -> Result<(), Why> {
    if i.carried {
        if i.whole {
            return level(i.first, i.x);
        }
        return Err(Why::Code(Code::Ends(i.next)));
    }
    Err(Why::Code(Code::Uncarried(i.first)))
}

// LDA, LOD, CPI and STR begin with a DB.
fn level(first: u8, x: u16) -> Result<(), Why> {
    if x <= 127 {
        return Ok(());
    }
    match first {
        136 | 137 | 146 | 166 => Err(Why::Code(Code::Level(x))),
        _ => Ok(()),
    }
}

// There are words enough, the meaning asks nothing in vain, and there is room.
fn of_words(seg: &[u8], region: &[u16], n: Numbers, i: Instruction, d: Does) -> Result<(), Why> {
    stack::few(n, i.taken)?;
    asks(seg, region, n, d, i.next)?;
    room(seg, n, d, i.taken, i.given)
}

fn asks(seg: &[u8], region: &[u16], n: Numbers, d: Does, next: usize) -> Result<(), Why> {
    match d {
        Does::Plain => Ok(()),
        Does::Pool(x) => places::pool(n, x),
        Does::Constants(b, k) => tables::constants(seg, b, k),
        Does::Offset(whose, x) => places::offset(region, n, whose, x),
        Does::Index(x) => places::indexed(region, n, x),
        Does::Store => places::stored(region, n),
        Does::Divide => stack::divided(region, n),
        Does::Subrange => stack::ranged(region, n),
        Does::Jump(x) => flow::jump(n, next, x),
        Does::JumpIf(want, x) => flow::branch(region, n, want, next, x),
        Does::Case(b) => tables::case(seg, word(region, n.sp as usize), b, narrow(next)),
        Does::Call(whose, k) => flow::call(seg, region, n, whose, k),
        Does::Return(b) => flow::back(region, n, b),
    }
}

// Whether SP after the step would lie below 6+G.
fn room(seg: &[u8], n: Numbers, d: Does, taken: u8, given: u8) -> Result<(), Why> {
    match d {
        Does::Call(_, k) => stack::entered(n, k, segment::routine_of(seg, k).datasize),
        Does::Constants(_, k) => stack::block(n, k),
        // its new SP was judged with its mark
        Does::Return(_) => Ok(()),
        _ => stack::deep(n, taken, given),
    }
}

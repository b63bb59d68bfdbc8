// What stands at a byte of the code: the first byte, whether it is carried, and its operands as far as they are there.
// Above: a step that faults, listings, and what is told of a fault. Below: the table of first bytes in `opcodes`, and the reader, which fetches operands.
#![tactic(auto)]

mod jump;
mod place;
mod recorded;

ghost use Rattle.std.specs.Prelude.{◌≡◌, true};
ghost use Rattle.operand.specs.Operand.{fetched_of, operand_value};
ghost use Rattle.pmachine.specs.Opcode.{opcode};
ghost use Rattle.opcodes.specs.Packed.{packed};
ghost use Rattle.instruction.specs.Standing.{cut_of, by_row};
ghost use Rattle.instruction.specs.Decodes.{Reads};
ghost use Rattle.instruction.specs.Parts.{by_digit, after as afterIt};

pub use jump::{Target, leads_to};
use operand::{Missing, Operand};
pub use place::{fetches_to, place_of};
pub use recorded::is_recorded;

// The mark of a byte that is not carried.
const MARK: u32 = 2147483648;

// The number of the form UB.
const UB: u8 = 1;

// An instruction as it stands in the code, carried or not. x, y and z are its operands in order, 0 where there is none. `next` is the byte
// after it, and the first byte that is missing where the segment ends within it; none of its operands is told then.
#[derive(Clone, Copy)]
pub struct Instruction {
    pub first: u8,
    pub carried: bool,
    pub whole: bool,
    pub x: u16,
    pub y: u16,
    pub z: u16,
    pub taken: u8,
    pub given: u8,
    pub next: usize,
}

fn row_of(first: u8) -> u32
    ensures { result ≡ packed (opcode first) }
{
    let t = opcodes::table();
    t[first as usize]
}

// An operand by its form's digit; and for none, digit 0, the value 0 at no bytes.
#[tactic(auto, unfolding(crate::specs::Parts::by_digit))]
fn by_form(seg: &[u8], digit: u8, at: usize) -> Result<Operand, Missing>
    ensures { fetched_of result ≡ by_digit digit seg.now at }
{
    if digit == 0 {
        return Ok(Operand { value: 0, next: at });
    }
    reader::read_at(seg, at, digit)
}

// The operand after one that was fetched; if that one is not there, none after it is.
#[tactic(auto, unfolding(crate::specs::Parts::after))]
fn after(seg: &[u8], before: Result<Operand, Missing>, digit: u8) -> Result<Operand, Missing>
    ensures { fetched_of result ≡ afterIt (fetched_of before) digit seg.now }
{
    by_form(seg, digit, before?.next)
}

fn value_of(o: Result<Operand, Missing>) -> u16
    ensures { result ≡ operand_value o }
{
    match o {
        Ok(o) => o.value,
        Err(_) => 0,
    }
}

// The instruction at byte `at`, which is a byte of the segment; past its end stands a byte 0 that is not whole.
// It reads as the machine decodes there. The first byte is read as an operand UB is.
pub fn read(seg: &[u8], at: usize) -> Instruction
    ensures { Reads seg.now at result }
{
    match reader::read_at(seg, at, UB) {
        Ok(first) => by_row(seg, first.value as u8, first.next),
        Err(missing) => cut(0, true, missing.place),
    }
}

// The instruction of this first byte, with its operands from `at` on: their digits stand in the row one above the other.
fn by_row(seg: &[u8], first: u8, at: usize) -> Instruction
    ensures { result ≡ by_row first (opcode first) seg.now at }
{
    let row = row_of(first);
    let x = by_form(seg, ((row / 65536) % 8) as u8, at);
    let y = after(seg, x, ((row / 524288) % 8) as u8);
    let z = after(seg, y, ((row / 4194304) % 8) as u8);
    match z {
        Ok(z) => Instruction {
            first,
            carried: row < MARK,
            whole: true,
            x: value_of(x),
            y: value_of(y),
            z: z.value,
            taken: (row % 256) as u8,
            given: ((row / 256) % 256) as u8,
            next: z.next,
        },
        Err(missing) => cut(first, row < MARK, missing.place),
    }
}

// An instruction that the segment's end cuts off.
fn cut(first: u8, carried: bool, place: usize) -> Instruction
    ensures { result ≡ cut_of first carried place }
{
    Instruction {
        first,
        carried,
        whole: false,
        x: 0,
        y: 0,
        z: 0,
        taken: 0,
        given: 0,
        next: place,
    }
}

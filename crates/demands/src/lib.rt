// Every entry point once more: each function calls one entry and states its contract again, so that a contract that is weakened below breaks the
// build here. Nobody calls them. What is promised of the definitions that they name is the record in specs/Demands. Below: every layer.
#![tactic(auto)]

ghost use Rattle.std.specs.Prelude.{◌≡◌, ℕ, ◌-◌, ◌≤◌, ◌<◌, length, get_or};
ghost use Rattle.basis.specs.Checks.{is_passed, ruling};
ghost use Rattle.operand.specs.Bytes.{byte_at};
ghost use Rattle.operand.specs.Operand.{fetched, fetched_of, form_at};
ghost use Rattle.segment.specs.Head.{head_of, routine_of};
ghost use Rattle.segment.specs.Judge.{judged, ruling_of};
ghost use Rattle.pmachine.specs.Opcode.{opcode};
ghost use Rattle.pmachine.specs.Decoding.{decode};
ghost use Rattle.pmachine.specs.Run.{place_of};
ghost use Rattle.opcodes.specs.Packed.{packed};
ghost use Rattle.instruction.specs.Decodes.{decoding_of};
ghost use Rattle.turning.specs.Turn.{turn_ruling, output_of};
ghost use Rattle.sound.specs.Bench.{world_of};
ghost use Rattle.sound.specs.Sound.{sound_b};
ghost use Rattle.entry.specs.Answer.{result_of};
ghost use Rattle.entry.specs.Entries.{new_of, new_by, load_of, open_of, window_open_of, turn_of, close_of};
ghost use Rattle.archive_records.specs.Records.{records_in, first_fall};
ghost use Rattle.archive.specs.Archive.{archive_checks, found_of, range_answer, farm_open_of};

use bench::{Out, Window};
use instruction::Instruction;
use operand::{Missing, Operand};
use segment::{Refusal, Routine, Segment};
use sound::Bench;

// ---- any bytes: a segment

pub fn head(seg: &[u8]) -> Segment
    ensures { result ≡ head_of seg.now }
{
    segment::head(seg)
}

pub fn routine(seg: &[u8], k: u16) -> Routine
    ensures { result ≡ routine_of seg.now k }
{
    segment::routine_of(seg, k)
}

pub fn judge(seg: &[u8]) -> Result<(), Refusal>
    ensures { ruling_of result ≡ judged seg.now }
{
    checks::judge(seg)
}

pub fn accepts(seg: &[u8]) -> bool
    ensures { result ≡ is_passed (judged seg.now) }
{
    checks::accepts(seg)
}

pub fn turn_segment(seg: &[u8], out: &mut [u8]) -> Result<(), Refusal>
    ensures answer { ruling_of result ≡ turn_ruling seg.now (length out.old) }
    ensures output { out.new ≡ output_of seg.now out.old }
{
    turning::turn(seg, out)
}

// An operand at any offset, of the form with this number.
pub fn operand(seg: &[u8], at: usize, form: u8) -> Result<Operand, Missing>
    ensures { fetched_of result ≡ fetched (form_at form) seg.now at }
{
    reader::read_at(seg, at, form)
}

// What stands at a byte of the code is what the documented machine decodes there.
pub fn instruction(seg: &[u8], at: usize) -> Instruction
    ensures byte { result.first ≡ byte_at seg.now at }
    ensures decodes { 22 ≤ at → at < length seg.now → decoding_of result ≡ decode seg.now at }
{
    instruction::read(seg, at)
}

// The place of a fault of the instruction at a byte: request 8, "fault 1 carries that as its place .. All other faults keep theirs."
pub fn fault_place(seg: &[u8], number: u8, at: usize) -> usize
    ensures { result ≡ place_of seg.now number at }
{
    instruction::place_of(seg, number, at)
}

// "Every one of the 256 first bytes has its operand form, words taken and words given in one table"
pub fn table() -> [u32; 256]
    ensures { (b : ℕ) → b < 256 → get_or result b 0 ≡ packed (opcode b) }
{
    opcodes::table()
}

// ---- any bench, any memory, any store, any numbers

pub fn is_sound(b: Bench, memory: &[u16], store: &[u8]) -> bool
    ensures { result ≡ sound_b b memory.now store.now }
{
    sound_test::is_sound(b, memory, store)
}

pub fn new_bench(n: usize, s: usize) -> Out
    ensures { new_by result ≡ new_of n s }
{
    bench::new_bench(n, s)
}

pub fn load(b: Bench, memory: &[u16], store: &[u8], slot: usize, start: usize, len: usize) -> Out
    ensures { result_of result memory.now ≡ load_of store.now slot start len (world_of b memory.now) }
{
    bench::load(b, memory, store, slot, start, len)
}

pub fn open_session(b: Bench, memory: &mut [u16], store: &[u8], slot: usize, len: usize) -> Out
    ensures { result_of result memory.new ≡ open_of store.now slot len (world_of b memory.old) }
{
    bench::open_session(b, memory, store, slot, len)
}

pub fn open_window(
    b: Bench,
    memory: &mut [u16],
    store: &[u8],
    slot: usize,
    len: usize,
    window: Window,
) -> Out
    ensures { result_of result memory.new ≡ window_open_of store.now slot len window (world_of b memory.old) }
{
    bench::open_window(b, memory, store, slot, len, window)
}

pub fn turn(b: Bench, memory: &mut [u16], store: &[u8], i: usize, k: u64) -> Out
    ensures { result_of result memory.new ≡ turn_of store.now i k (world_of b memory.old) }
{
    bench::turn(b, memory, store, i, k)
}

pub fn close(b: Bench, memory: &mut [u16], store: &[u8], i: usize) -> Out
    ensures { result_of result memory.new ≡ close_of store.now i (world_of b memory.old) }
{
    bench::close(b, memory, store, i)
}

// ---- the archive of a bench

pub fn accept(b: Bench, memory: &[u16], store: &[u8]) -> Result<(), Refusal>
    ensures { ruling_of result ≡ ruling (archive_checks store.now (world_of b memory.now)) }
{
    archive::accept(b, memory, store)
}

pub fn range(b: Bench, memory: &[u16], store: &[u8], farm: u16) -> Result<Window, Refusal>
    ensures { found_of result ≡ range_answer store.now farm (world_of b memory.now) }
{
    archive::range(b, memory, store, farm)
}

pub fn open_farm(
    b: Bench,
    memory: &mut [u16],
    store: &[u8],
    slot: usize,
    len: usize,
    farm: u16,
) -> Out
    ensures { result_of result memory.new ≡ farm_open_of store.now slot len farm (world_of b memory.old) }
{
    archive::open_farm(b, memory, store, slot, len, farm)
}

// The record that the maintainer is shown if farm numbers fall.
pub fn falls_at(words: &[u16]) -> usize
    ensures { result ≡ first_fall words.now (records_in words.now - 1) }
{
    archive::falls_at(words)
}

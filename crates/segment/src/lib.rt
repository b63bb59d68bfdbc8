// Code segments: the numbers of the header and of the routines, and why one is refused. All is total, for any bytes.
// Below: bytes and words. Above: the verdict of checks 1 to 8, turning a segment's byte sex, the machine, the bench, listings and causes.
#![tactic(auto)]

ghost use Rattle.std.specs.Prelude.{◌≡◌, ◌+◌, cond, eqb};
ghost use Rattle.segment.specs.Head.{least, datasize, head_of, routine_of, fresh_of};

use operand::{byte_at, word_at};

mod refusal;

pub use refusal::Refusal;

// The numbers of a segment's header: how many words, whether words are least byte first, the
// dictionary, relocation and pool pointers, where the real pool starts, the real size, and how many routines.
#[derive(Clone, Copy)]
pub struct Segment {
    pub words: usize,
    pub least: bool,
    pub dict: u16,
    pub reloc: u16,
    pub pool: u16,
    pub reals: usize,
    pub real: u16,
    pub count: u16,
}

impl Segment {
    // Word numbers of the header.
    pub const DICT: u32 = 0;

    pub const RELOC: u32 = 1;

    pub const NAME: u32 = 2;

    pub const SEX: u32 = 6;

    pub const POOL: u32 = 7;

    pub const REAL: u32 = 8;
    // The first word after the header, and the first byte of the sex word.
    pub const BODY: usize = 11;

    pub const SEX_BYTE: usize = 12;
    // The bytes of the sex word: ONE NIL is least byte first, NIL ONE is most byte first.
    pub const ONE: u8 = 1;

    pub const NIL: u8 = 0;

    // The record of a segment that is not there yet.
    pub fn fresh() -> Self
        ensures { result ≡ fresh_of }
    {
        Self {
            words: 0,
            least: true,
            dict: 0,
            reloc: 0,
            pool: 0,
            reals: 0,
            real: 0,
            count: 0,
        }
    }
}

// The numbers of a routine; start is the byte of its first instruction. Kept: 0 for a routine that is not linked, and no Option, since it is a
// segment's own number, of which the contract of `routine_of` and the edits unlinked_at_one and unlinked_starts_at_two speak.
#[derive(Clone, Copy)]
pub struct Routine {
    pub entry: u16,
    pub datasize: u16,
    pub exitic: u16,
    pub start: u32,
}

fn is_least(seg: &[u8]) -> bool
    ensures { result ≡ least seg.now }
{
    byte_at(seg, Segment::SEX_BYTE) == Segment::ONE
}

// Where the real pool starts, of W, the pool pointer and the pool's first word: W without a real pool, 0 without a pool.
fn reals_of(words: usize, pool: u16, first: u16) -> usize
    ensures { result ≡ cond (eqb pool 0) 0 (cond (eqb first 0) words (pool + first)) }
{
    if pool == 0 {
        return 0;
    }
    if first == 0 {
        return words;
    }
    pool as usize + first as usize
}

// The header's numbers, set one after another in a fresh record. Kept: `fresh` is public, and the edits fresh_most_first and fresh_one_word are of it.
pub fn head(seg: &[u8]) -> Segment
    ensures { result ≡ head_of seg.now }
{
    let mut h = Segment::fresh();
    let least = is_least(seg);
    let dict = word_at(seg, least, Segment::DICT);
    h.words = seg.len() / 2;
    h.least = least;
    h.dict = dict;
    h.reloc = word_at(seg, least, Segment::RELOC);
    let pool = word_at(seg, least, Segment::POOL);
    h.pool = pool;
    h.reals = reals_of(h.words, pool, word_at(seg, least, pool as u32));
    h.real = word_at(seg, least, Segment::REAL);
    h.count = word_at(seg, least, dict as u32);
    h
}

// The numbers of routine k. Its entry is the word number of its DATASIZE; a routine that is declared and not linked has the entry 0, and all is 0.
pub fn routine_of(seg: &[u8], k: u16) -> Routine
    ensures { result ≡ routine_of seg.now k }
{
    let least = is_least(seg);
    let dict = word_at(seg, least, Segment::DICT);
    let entry = word_at(seg, least, (dict as u32) + (k as u32));
    if entry == 0 {
        return Routine {
            entry: 0,
            datasize: 0,
            exitic: 0,
            start: 0,
        };
    }
    Routine {
        entry,
        datasize: word_at(seg, least, entry as u32),
        exitic: word_at(seg, least, (entry - 1) as u32),
        start: 2 * (entry as u32 + 1),
    }
}

// 6+G, below which the stack pointer never lies: G is DATASIZE of routine 1.
pub fn floor(seg: &[u8]) -> u32
    ensures { result ≡ 6 + datasize seg.now 1 }
{
    let first = routine_of(seg, 1);
    6 + first.datasize as u32
}

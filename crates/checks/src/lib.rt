// The verdict on a segment: checks 1 to 5, then 6, 7 and 8 of each routine in turn.
// Below: the numbers of a segment, and what each check asks. Above: loading, turning, and the soundness of the bench, which judges every loaded slot.
#![tactic(auto)]

ghost use Rattle.std.specs.Prelude.{◌≡◌, cond, ◌&&◌, ◌||◌, ◌+◌, ◌<◌, ltb, eqb};
ghost use Rattle.basis.specs.Bools.{inside};
ghost use Rattle.segment.specs.Head.{words, least, dict, count, shape_ok, sex_ok};
ghost use Rattle.basis.specs.Checks.{passed, refused, is_passed, ruling, passes};
ghost use Rattle.segment.specs.Refusals.{number_of, place_of};
ghost use Rattle.segment.specs.Judge.{head_checks, routine_checks, routines_from, judged, ruling_of};

use operand::{byte_at, word_at, word_in};
use segment::{Refusal, Segment};

// A line of the refusal table: nothing, or its refusal.
fn checked(ok: bool, refusal: Refusal) -> Result<(), Refusal>
    ensures { ruling_of result ≡ cond ok passed (refused (number_of refusal) (place_of refusal)) }
{
    if ok { Ok(()) } else { Err(refusal) }
}

fn shape_ok(seg: &[u8]) -> bool
    ensures { result ≡ shape_ok seg.now }
{
    bounds::both(seg.len() % 2 == 0, bounds::within(16, 32768, seg.len() / 2))
}

fn sex_ok(seg: &[u8]) -> bool
    ensures { result ≡ sex_ok seg.now }
{
    let a = byte_at(seg, Segment::SEX_BYTE);
    let b = byte_at(seg, Segment::SEX_BYTE + 1);
    bounds::either(
        bounds::both(a == Segment::ONE, b == Segment::NIL),
        bounds::both(a == Segment::NIL, b == Segment::ONE),
    )
}

// Of W, the pool pointer and the pool's first word.
fn pool_ok(w: usize, p: u16, first: u16) -> bool
    ensures { result ≡ (eqb p 0 || (inside 11 w p && ltb (p + first) w)) }
{
    let reals = (p as usize) + (first as usize);
    bounds::either(
        p == 0,
        bounds::both(bounds::within(Segment::BODY, w, p as usize), reals < w),
    )
}

// Of W, the dictionary pointer and the number of routines.
fn dict_ok(w: usize, d: u16, n: u16) -> bool
    ensures { result ≡ (inside 11 w d && (inside 1 256 n && ltb (d + n) w)) }
{
    let end = (d as usize) + (n as usize);
    bounds::both(
        bounds::within(Segment::BODY, w, d as usize),
        bounds::both(bounds::within(1, 256, n as usize), end < w),
    )
}

// Checks 1 to 5.
fn judge_head(seg: &[u8]) -> Result<(), Refusal>
    ensures { ruling_of result ≡ ruling (head_checks seg.now) }
{
    let h = segment::head(seg);
    let first = word_at(seg, h.least, h.pool as u32);
    checked(shape_ok(seg), Refusal::Length)?;
    checked(sex_ok(seg), Refusal::Sex)?;
    checked(h.reloc == 0, Refusal::Relocation)?;
    checked(pool_ok(h.words, h.pool, first), Refusal::Pool)?;
    checked(dict_ok(h.words, h.dict, h.count), Refusal::Dictionary)
}

// Checks 6 to 8 of routine k. One that is not linked has none, unless it is routine 1.
fn judge_routine(seg: &[u8], k: u16) -> Result<(), Refusal>
    ensures { ruling_of result ≡ ruling (routine_checks seg.now k) }
{
    let r = segment::routine_of(seg, k);
    let w = seg.len() / 2;
    let e = r.entry as usize;
    if bounds::both(e == 0, k != 1) {
        return Ok(());
    }
    checked(bounds::both(12 <= e, e + 1 < w), Refusal::Entry(k))?;
    checked(r.datasize < 32768, Refusal::Datasize(k))?;
    checked(
        bounds::within(22, 2 * w, r.exitic as usize),
        Refusal::Exitic(k),
    )
}

// Whether routine k passes checks 6 to 8, of what is read once a segment: the sex, W and D. The routine's
// word of the dictionary lies inside, and so do EXITIC and DATASIZE where check 6 passes: no word is tested for the end. That a routine is not linked
// is asked only of entries below 12, so that a linked one pays nothing for it.
fn routine_passes(seg: &[u8], sex: bool, w: usize, d: usize, k: usize) -> bool
    requires { (sex ≡ least seg.now) × (w ≡ words seg.now) × (d ≡ dict seg.now) × (d + k < w) }
    ensures { result ≡ passes (routine_checks seg.now k) }
{
    let e = word_in(seg, sex, d + k) as usize;
    if e < 12 {
        return bounds::both(e == 0, k != 1);
    }
    if w <= e + 1 {
        return false;
    }
    if 32768 <= word_in(seg, sex, e) {
        return false;
    }
    bounds::within(22, 2 * w, word_in(seg, sex, e - 1) as usize)
}

// Checks 6 to 8 of every routine, the lowest number first, of a segment that passed checks 1 to 5.
// A refusal's number and place are looked for only once there is one.
fn judge_routines(seg: &[u8]) -> Result<(), Refusal>
    requires { ruling (head_checks seg.now) ≡ passed }
    ensures { ruling_of result ≡ ruling (routines_from seg.now (count seg.now) 1) }
{
    let h = segment::head(seg);
    let d = h.dict as usize;
    for k in 1..=h.count {
        if !routine_passes(seg, h.least, h.words, d, k as usize) {
            return judge_routine(seg, k);
        }
    }
    Ok(())
}

pub fn judge(seg: &[u8]) -> Result<(), Refusal>
    ensures { ruling_of result ≡ judged seg.now }
{
    judge_head(seg)?;
    judge_routines(seg)
}

// Whether a segment passes checks 1 to 8.
pub fn accepts(seg: &[u8]) -> bool
    ensures { result ≡ is_passed (judged seg.now) }
{
    judge(seg).is_ok()
}

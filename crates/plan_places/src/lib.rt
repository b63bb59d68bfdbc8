// Words of records, addresses, and the constant pool: what is read, and where a word may be stored.
// Above: `judge`; below: `plan`.
#![tactic(auto, unfolding(plan::specs::Answer::outcome_of, plan::specs::Mirror::lack, plan::specs::Mirror::loaded, plan::specs::Mirror::addressed, plan::specs::Mirror::stored, plan::specs::Mirror::gives, plan::specs::Mirror::read_at, plan::specs::Mirror::stored_at, plan::specs::Mirror::pooled))]

ghost use Rattle.std.specs.Prelude.{◌≡◌, List, ℕ, ◌≤◌, length, get_or};
ghost use Rattle.plan.specs.Answer.{regs_of, outcome_of};
ghost use Rattle.plan.specs.Mirror.{lack, loaded, addressed, stored, gives, read_at, stored_at, pooled};

use plan::{Planned, Regs, push, word_of};

// Offset a of the record at rec.
pub fn load(region: &[u16], floor: usize, r: Regs, rec: usize, a: u16, next: usize) -> Planned
    requires { (1 ≤ r.sp) × (rec ≤ 32768) }
    ensures { (s : List ℕ) → outcome_of s r result ≡ loaded region.now floor (regs_of r) rec a next }
{
    let at = rec + 4 + a as usize;
    if region.len() <= at {
        Planned::Bad(6)
    } else {
        push(floor, r, next, word_of(region, at))
    }
}

pub fn address(region: &[u16], floor: usize, r: Regs, rec: usize, a: u16, next: usize) -> Planned
    requires { (1 ≤ r.sp) × ((rec ≤ 32768) × (length region.now ≤ 32768)) }
    ensures { (s : List ℕ) → outcome_of s r result ≡ addressed region.now floor (regs_of r) rec a next }
{
    let at = rec + 4 + a as usize;
    if region.len() <= at {
        Planned::Bad(6)
    } else {
        push(floor, r, next, at as u16)
    }
}

pub fn store(region: &[u16], r: Regs, rec: usize, a: u16, next: usize) -> Planned
    requires { (r.sp ≤ 32768) × ((rec ≤ 32768) × (length region.now ≤ 32768)) }
    ensures { (s : List ℕ) → outcome_of s r result ≡ lack 1 region.now (regs_of r) (stored region.now (regs_of r) rec a next) }
{
    if region.len() < r.sp + 1 {
        return Planned::Bad(3);
    }
    let at = rec + 4 + a as usize;
    if region.len() <= at {
        Planned::Bad(6)
    } else {
        Planned::Put(word_of(region, r.sp), r.sp + 1, next, at)
    }
}

// The word i words on from the address base.
fn read_at(region: &[u16], shared: &[u16], base: u16, i: u16) -> Option<u16>
    requires { (length region.now ≤ 32768) × (length shared.now ≤ 32768) }
    ensures { result ≡ read_at region.now shared.now base i }
{
    if base < 1 {
        return None;
    }
    let at = base as usize + i as usize;
    if at < region.len() {
        return Some(word_of(region, at));
    }
    if at < 32768 {
        return None;
    }
    if shared.len() <= at - 32768 {
        return None;
    }
    Some(word_of(shared, at - 32768))
}

// A word that was read, in the place of its address.
fn give_read(r: Regs, next: usize, x: Option<u16>) -> Planned
    ensures { (s : List ℕ) → outcome_of s r result ≡ gives (regs_of r) next x }
{
    match x {
        Some(v) => Planned::One(v, next),
        None => Planned::Bad(6),
    }
}

// An address becomes the word i words on from it.
pub fn index(region: &[u16], shared: &[u16], r: Regs, i: u16, next: usize) -> Planned
    requires { (r.sp ≤ 32768) × ((length region.now ≤ 32768) × (length shared.now ≤ 32768)) }
    ensures { (s : List ℕ) → outcome_of s r result ≡ lack 1 region.now (regs_of r) (gives (regs_of r) next (read_at region.now shared.now (get_or region.now r.sp 0) i)) }
{
    if region.len() < r.sp + 1 {
        return Planned::Bad(3);
    }
    give_read(r, next, read_at(region, shared, word_of(region, r.sp), i))
}

// The top word goes to the address below it.
pub fn store_at(region: &[u16], r: Regs, next: usize) -> Planned
    requires { (r.sp ≤ 32768) × (length region.now ≤ 32768) }
    ensures { (s : List ℕ) → outcome_of s r result ≡ lack 2 region.now (regs_of r) (stored_at region.now (regs_of r) next) }
{
    if region.len() < r.sp + 2 {
        return Planned::Bad(3);
    }
    let at = word_of(region, r.sp + 1) as usize;
    if at < 1 {
        Planned::Bad(6)
    } else {
        if region.len() <= at {
            Planned::Bad(6)
        } else {
            Planned::Put(word_of(region, r.sp), r.sp + 2, next, at)
        }
    }
}

// The word offset a of the constant pool, as a word number of the segment.
pub fn pool_offset(words: usize, pool: usize, floor: usize, r: Regs, next: usize, a: u16) -> Planned
    requires { (words ≤ 32767) × ((pool ≤ 65535) × (1 ≤ r.sp)) }
    ensures { (s : List ℕ) → outcome_of s r result ≡ pooled words pool floor (regs_of r) next a }
{
    if pool == 0 {
        Planned::Bad(6)
    } else {
        let at = pool + a as usize;
        if words <= at {
            Planned::Bad(6)
        } else {
            push(floor, r, next, at as u16)
        }
    }
}

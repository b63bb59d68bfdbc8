// Words on the stack: what is taken from it and given to it.
// Above: `judge`; below: `plan`, and the integers of `word` and `compare`.
#![tactic(auto, unfolding(plan::specs::Answer::outcome_of, plan::specs::Mirror::lack, plan::specs::Mirror::divided, plan::specs::Mirror::checked))]

ghost use Rattle.std.specs.Prelude.{◌≡◌, List, ℕ, ◌+◌, ◌≤◌, get_or};
ghost use Rattle.plan.specs.Answer.{regs_of, outcome_of};
ghost use Rattle.plan.specs.Mirror.{lack, pushed, swapped, one, one_of, two, two_of, divided, division_of, checked};

use plan::{Binary, Division, Planned, Regs, Unary, push, word_of};

pub fn duplicate(region: &[u16], floor: usize, r: Regs, next: usize) -> Planned
    requires { (1 ≤ r.sp) × (r.sp ≤ 32768) }
    ensures { (s : List ℕ) → outcome_of s r result ≡ lack 1 region.now (regs_of r) (pushed floor (regs_of r) next (get_or region.now r.sp 0)) }
{
    if region.len() < r.sp + 1 {
        return Planned::Bad(3);
    }
    push(floor, r, next, word_of(region, r.sp))
}

pub fn swap(region: &[u16], r: Regs, next: usize) -> Planned
    requires { r.sp ≤ 32768 }
    ensures { (s : List ℕ) → outcome_of s r result ≡ lack 2 region.now (regs_of r) (swapped region.now (regs_of r) next) }
{
    if region.len() < r.sp + 2 {
        return Planned::Bad(3);
    }
    Planned::Swap(word_of(region, r.sp + 1), word_of(region, r.sp), next)
}

// A word in the place of the top one.
fn give_one(r: Regs, next: usize, v: u16) -> Planned
    ensures { (s : List ℕ) → outcome_of s r result ≡ one (regs_of r) next v }
{
    Planned::One(v, next)
}

// A word in the place of the two top ones.
fn give_two(r: Regs, next: usize, v: u16) -> Planned
    ensures { (s : List ℕ) → outcome_of s r result ≡ two (regs_of r) next v }
{
    Planned::Two(v, next)
}

fn one_of(f: Unary, x: u16) -> u16
    ensures { result ≡ one_of f x }
{
    match f {
        Unary::Abi => word::mag(x),
        Unary::Ngi => word::neg(x),
        Unary::Lnot => compare::bit_not(x),
        Unary::Inci => word::inc(x),
        Unary::Deci => word::dec(x),
    }
}

pub fn one_word(region: &[u16], r: Regs, next: usize, f: Unary) -> Planned
    requires { r.sp ≤ 32768 }
    ensures { (s : List ℕ) → outcome_of s r result ≡ lack 1 region.now (regs_of r) (one (regs_of r) next (one_of f (get_or region.now r.sp 0))) }
{
    if region.len() < r.sp + 1 {
        return Planned::Bad(3);
    }
    give_one(r, next, one_of(f, word_of(region, r.sp)))
}

fn two_of(f: Binary, x: u16, y: u16) -> u16
    ensures { result ≡ two_of f x y }
{
    match f {
        Binary::Mpi => word::mul(x, y),
        Binary::Lor => compare::bit_or(x, y),
        Binary::Land => compare::bit_and(x, y),
        Binary::Adi => word::add(x, y),
        Binary::Sbi => word::sub(x, y),
        Binary::Equi => compare::equal(x, y),
        Binary::Neqi => compare::differ(x, y),
        Binary::Leqi => compare::leq(x, y),
        Binary::Geqi => compare::geq(x, y),
        Binary::Leusw => compare::leu(x, y),
        Binary::Geusw => compare::geu(x, y),
    }
}

pub fn two_words(region: &[u16], r: Regs, next: usize, f: Binary) -> Planned
    requires { r.sp ≤ 32768 }
    ensures { (s : List ℕ) → outcome_of s r result ≡ lack 2 region.now (regs_of r) (two (regs_of r) next (two_of f (get_or region.now (r.sp + 1) 0) (get_or region.now r.sp 0))) }
{
    if region.len() < r.sp + 2 {
        return Planned::Bad(3);
    }
    give_two(
        r,
        next,
        two_of(f, word_of(region, r.sp + 1), word_of(region, r.sp)),
    )
}

pub fn divide(region: &[u16], r: Regs, next: usize, f: Division) -> Planned
    requires { r.sp ≤ 32768 }
    ensures { (s : List ℕ) → outcome_of s r result ≡ lack 2 region.now (regs_of r) (divided (division_of f) (regs_of r) next (get_or region.now (r.sp + 1) 0) (get_or region.now r.sp 0)) }
{
    if region.len() < r.sp + 2 {
        return Planned::Bad(3);
    }
    let x = word_of(region, r.sp + 1);
    let y = word_of(region, r.sp);
    if y == 0 {
        return Planned::Bad(5);
    }
    match f {
        Division::Dvi => give_two(r, next, word::quot(x, y)),
        Division::Modi => give_two(r, next, word::rem(x, y)),
    }
}

// TOS-1 <= TOS-2 <= TOS, leaving TOS-2.
pub fn check_range(region: &[u16], r: Regs, next: usize) -> Planned
    requires { r.sp ≤ 32768 }
    ensures { (s : List ℕ) → outcome_of s r result ≡ lack 3 region.now (regs_of r) (checked region.now (regs_of r) next) }
{
    if region.len() < r.sp + 3 {
        return Planned::Bad(3);
    }
    let v = word_of(region, r.sp + 2);
    if compare::leq(word_of(region, r.sp + 1), v) == 1 {
        if compare::leq(v, word_of(region, r.sp)) == 1 {
            Planned::Move(r.sp + 2, next)
        } else {
            Planned::Bad(10)
        }
    } else {
        Planned::Bad(10)
    }
}

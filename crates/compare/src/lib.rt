// Comparisons of words, signed and unsigned, which answer 1 or 0; and AND, OR and NOT of all 16 bits.
// Below: basis, whose laws are cited. Above: the machine's instructions. No function asks anything of its words.
#![tactic(auto, unfolding(basis::specs::Integer::eq_of, basis::specs::Integer::ne_of, basis::specs::Integer::leu_of, basis::specs::Integer::geu_of, basis::specs::Integer::geq_of, basis::specs::Integer::truth, basis::specs::Integer::and_of, basis::specs::Integer::or_of, basis::specs::Integer::not_of, basis::specs::Integer::flipped))]

ghost use Rattle.std.specs.Prelude.{◌≡◌};
ghost use Rattle.basis.specs.Integer.{eq_of, ne_of, leq_of, geq_of, leu_of, geu_of, and_of, or_of, not_of};

pub fn equal(x: u16, y: u16) -> u16
    ensures { result ≡ eq_of x y }
{
    if x == y {
        return 1;
    }
    0
}

pub fn differ(x: u16, y: u16) -> u16
    ensures { result ≡ ne_of x y }
{
    if x != y {
        return 1;
    }
    0
}

// 32,768 added to both turns the signed order into that of the words.
#[tactic(auto, using(basis::proofs::Integer::leq_is), unfolding(basis::specs::Integer::truth))]
pub fn leq(x: u16, y: u16) -> u16
    ensures { result ≡ leq_of x y }
{
    if x.wrapping_add(32768) <= y.wrapping_add(32768) {
        return 1;
    }
    0
}

#[tactic(auto, unfolding(basis::specs::Integer::leq_of, basis::specs::Integer::geq_of))]
pub fn geq(x: u16, y: u16) -> u16
    ensures { result ≡ geq_of x y }
{
    leq(y, x)
}

pub fn leu(x: u16, y: u16) -> u16
    ensures { result ≡ leu_of x y }
{
    if x <= y {
        return 1;
    }
    0
}

#[tactic(auto, unfolding(basis::specs::Integer::leu_of, basis::specs::Integer::geu_of))]
pub fn geu(x: u16, y: u16) -> u16
    ensures { result ≡ geu_of x y }
{
    leu(y, x)
}

pub fn bit_and(x: u16, y: u16) -> u16
    ensures { result ≡ and_of x y }
{
    x & y
}

pub fn bit_or(x: u16, y: u16) -> u16
    ensures { result ≡ or_of x y }
{
    x | y
}

// All 16 bits flipped.
pub fn bit_not(x: u16) -> u16
    ensures { result ≡ not_of x }
{
    x ^ 65535
}

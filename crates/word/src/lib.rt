// Arithmetic of 16-bit integers: they wrap, in two's complement. A word below 32,768 is its own integer, and one from there on is 65,536 less.
// Below: basis, whose laws are cited, and std's wrapping add and subtract. Above: the machine's instructions. No function asks anything of its words.
#![tactic(auto)]

ghost use Rattle.std.specs.Prelude.{◌≡◌, ◌*◌, ◌%◌};
ghost use Rattle.basis.specs.Integer.{add_of, sub_of, mul_of, quot_of, rem_of, neg_of, mag_of, inc_of, dec_of};

#[tactic(auto, using(basis::proofs::Integer::add_is))]
pub fn add(x: u16, y: u16) -> u16
    ensures { result ≡ add_of x y }
{
    x.wrapping_add(y)
}

#[tactic(auto, using(basis::proofs::Integer::sub_is))]
pub fn sub(x: u16, y: u16) -> u16
    ensures { result ≡ sub_of x y }
{
    x.wrapping_sub(y)
}

#[tactic(auto, using(basis::proofs::Integer::sub_is, basis::proofs::Integer::neg_sub))]
pub fn neg(x: u16) -> u16
    ensures { result ≡ neg_of x }
{
    0_u16.wrapping_sub(x)
}

#[tactic(auto, using(basis::proofs::Integer::add_is, basis::proofs::Integer::inc_is))]
pub fn inc(x: u16) -> u16
    ensures { result ≡ inc_of x }
{
    x.wrapping_add(1)
}

#[tactic(auto, using(basis::proofs::Integer::sub_is, basis::proofs::Integer::dec_is))]
pub fn dec(x: u16) -> u16
    ensures { result ≡ dec_of x }
{
    x.wrapping_sub(1)
}

// A word times a byte, cut to a word.
fn times(x: u16, byte: u8) -> u16
    ensures { result ≡ x * byte % 65536 }
{
    (x as u32 * byte as u32 % 65536) as u16
}

// One turn for each byte of y, the lowest first: x, moved up by a byte at every turn, times that byte is added.
pub fn mul(x: u16, y: u16) -> u16
    ensures { result ≡ mul_of x y }
{
    let mut sum: u16 = 0;
    let mut factor = x;
    let mut left = y;
    while left != 0 {
        sum = sum.wrapping_add(times(factor, (left % 256) as u8));
        factor = factor % 256 * 256;
        left = left / 256;
    }
    sum
}

// Of -32,768 it is -32,768, whose word read without a sign is the magnitude 32,768: so quot and rem divide by mag's words.
#[tactic(auto, using(basis::proofs::Integer::mag_low, basis::proofs::Integer::mag_high))]
pub fn mag(x: u16) -> u16
    ensures { result ≡ mag_of x }
{
    if x <= 32767 {
        return x;
    }
    neg(x)
}

// The magnitudes' quotient, negative where the signs differ: cut towards zero. By 0 it is 0.
#[tactic(auto, using(basis::proofs::Integer::quot_none, basis::proofs::Integer::divisor_some, basis::proofs::Integer::quot_plus_plus, basis::proofs::Integer::quot_plus_minus, basis::proofs::Integer::quot_minus_plus, basis::proofs::Integer::quot_minus_minus))]
pub fn quot(x: u16, y: u16) -> u16
    ensures { result ≡ quot_of x y }
{
    if y == 0 {
        return 0;
    }
    let q = mag(x) / mag(y);
    if x < 32768 {
        if y < 32768 {
            return q;
        }
        return neg(q);
    }
    if 32768 <= y {
        return q;
    }
    neg(q)
}

// The magnitudes' remainder, with the dividend's sign. By 0 it is x.
#[tactic(auto, using(basis::proofs::Integer::rem_none, basis::proofs::Integer::divisor_some, basis::proofs::Integer::rem_plus, basis::proofs::Integer::rem_minus))]
pub fn rem(x: u16, y: u16) -> u16
    ensures { result ≡ rem_of x y }
{
    if y == 0 {
        return x;
    }
    let r = mag(x) % mag(y);
    if 32768 <= x {
        return neg(r);
    }
    r
}

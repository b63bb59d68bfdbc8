// Small tests, so that a chain of checks is a chain of calls with one promise each; and a part of a slice that needs no bound from the caller.
// Below: basis, whose laws are cited. Above: the checks of a segment, sessions, the bench and its soundness, and the commands.
#![tactic(auto, unfolding(basis::specs::Bools::inside))]

ghost use Rattle.std.specs.Prelude.{◌≡◌, ◌&&◌, ◌||◌, ◌+◌, leb, take, drop};
ghost use Rattle.basis.specs.Bools.{inside};

pub fn both(a: bool, b: bool) -> bool
    ensures { result ≡ (a && b) }
{
    if a {
        return b;
    }
    false
}

pub fn either(a: bool, b: bool) -> bool
    ensures { result ≡ (a || b) }
{
    if a {
        return true;
    }
    b
}

pub fn at_most(a: usize, b: usize) -> bool
    ensures { result ≡ leb a b }
{
    a <= b
}

// lo <= x < end.
pub fn within(lo: usize, end: usize, x: usize) -> bool
    ensures { result ≡ inside lo end x }
{
    if lo <= x {
        return x < end;
    }
    false
}

// Whether len words from base end by top. The sum of base and len is not made: it could wrap.
pub fn ends_by(base: usize, len: usize, top: usize) -> bool
    ensures { result ≡ leb (base + len) top }
{
    if top < base {
        return false;
    }
    len <= top - base
}

// The len bytes from start on, as many of them as there are.
pub fn code_of(store: &[u8], start: usize, len: usize) -> &[u8]
    ensures { result.now ≡ take len (drop start store.now) }
{
    if store.len() <= start {
        return &store[..0];
    }
    if store.len() - start < len {
        return &store[start..];
    }
    let end = start + len;
    &store[start..end]
}

// Digests of numbers, words and bytes.
// Above it: the requests. Below it: nothing.
ghost use Rattle.std.specs.Prelude.{◌<◌};

// A digest after one number more, which is taken modulo 2^32.
pub fn taken(h: u64, x: u64) -> u64
    ensures { result < 4294967291 }
{
    ((h % 4294967296) * 16777619 + x % 4294967296) % 4294967291
}

// A digest after a number of the bench: its lower and then its upper 32 bits.
pub fn both_halves(h: u64, x: u64) -> u64 {
    taken(taken(h, x), x / 4294967296)
}

// The digest of words, or of bytes.
pub fn of<T: Copy + Into<u64>>(items: &[T]) -> u64
    ensures { result < 4294967291 }
{
    let mut h = 0;
    for x in items {
        h = taken(h, (*x).into());
    }
    h
}

// Parts, equality and joins of slices, for any slices: nothing is asked of a caller.
// Above it: the console. Below it: nothing.
ghost use Rattle.std.specs.Prelude.{◌≡◌, true, length, take};
ghost use Rattle.text.specs.Joins.{joined_in};

// The first n bytes, or all where there are fewer.
pub fn front(s: &[u8], n: usize) -> &[u8]
    ensures { result.now ≡ take n s.now }
{
    &s[..n.min(s.len())]
}

// Whether a and b hold the same bytes.
pub fn same(a: &[u8], b: &[u8]) -> bool
    ensures { (result ≡ true → a.now ≡ b.now) × (a.now ≡ b.now → result ≡ true) }
{
    a == b
}

// Puts a and then b at the start of room, and answers how many bytes they have together, or 0 where
// room has not so many.
pub fn joined(a: &[u8], b: &[u8], room: &mut [u8]) -> usize
    ensures value { result ≡ length (joined_in (length room.old) a.now b.now) }
    ensures room_after { take result room.new ≡ joined_in (length room.old) a.now b.now }
{
    let n = a.len();
    if n > room.len() {
        return 0;
    }
    if b.len() > room.len() - n {
        return 0;
    }
    room[..n].copy_from_slice(a);
    room[n..n + b.len()].copy_from_slice(b);
    n + b.len()
}

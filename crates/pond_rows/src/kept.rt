// A row of bytes: read, and put.
// Above it: the book and the tape. Below it: nothing.
ghost use Rattle.std.specs.Prelude.{◌≤◌};

use std::cmp::min;

// The most bytes that a row keeps: as many as the longest word has.
const MOST: usize = 4096;

// What a row keeps: the first len of these.
#[derive(Clone, Copy)]
pub struct Bytes {
    len: usize,
    all: [u8; MOST],
    ghost fits: { len ≤ 4096 },
}

impl Bytes {
    // The bytes, or the first 4,096 of them.
    fn of(bytes: &[u8]) -> Self {
        let len = min(bytes.len(), MOST);
        let mut all = [0u8; MOST];
        all[..len].copy_from_slice(&bytes[..len]);
        Bytes { len, all }
    }
}

// So many rows without bytes.
pub(crate) fn rows<const N: usize>() -> [Bytes; N] {
    [Bytes::of(b""); N]
}

// The bytes of row k, or none where there is no such row.
pub fn row(rows: &[Bytes], k: usize) -> &[u8] {
    rows.get(k).map_or(b"", |r| &r.all[..r.len])
}

// Row k from now on: the bytes, or the first 4,096 of them.
pub fn put(rows: &mut [Bytes], k: usize, bytes: &[u8]) {
    if let Some(r) = rows.get_mut(k) {
        *r = Bytes::of(bytes);
    }
}

// Empties every row.
pub fn empty(rows: &mut [Bytes]) {
    rows.fill(Bytes::of(b""));
}

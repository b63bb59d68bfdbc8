// Many texts in one: a row cut at its semicolons, or a page cut at its line ends. A text costs the check the same whatever its length, so one stands for many.
// Above it: tables of sentences. Below it: nothing.
// Piece k of a row, from 0 up, or no bytes where it has no such piece.
pub fn piece(row: &[u8], k: u8) -> &[u8] {
    cut(row, b';', usize::from(k))
}

// Line k of a page, from 0 up, or no bytes where it has no such line: for sentences, which may hold a semicolon.
pub fn line(page: &[u8], k: u8) -> &[u8] {
    cut(page, b'\n', usize::from(k))
}

// Part k of a text that a mark of the caller's choice cuts, from 0 up, or no bytes where it has no such part.
pub fn cut(all: &[u8], mark: u8, k: usize) -> &[u8] {
    all.split(|b| *b == mark).nth(k).unwrap_or(&[])
}

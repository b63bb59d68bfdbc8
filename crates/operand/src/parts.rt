// Bytes and words. Every read but `word_in` is total: past the end stand zeros, as in the definitions.
// Above: operands, a segment's header and the machine.
#![tactic(auto, unfolding(crate::specs::Bytes::word_by))]

ghost use Rattle.std.specs.Prelude.{◌≡◌, ◌+◌, ◌*◌, ◌<◌, length};
ghost use Rattle.operand.specs.Bytes.{byte_at, join, word_by};

pub fn byte_at(seg: &[u8], i: usize) -> u8
    ensures { result ≡ byte_at seg.now i }
{
    if i < seg.len() {
        return seg[i];
    }
    0
}

pub fn pair(lo: u8, hi: u8) -> u16
    ensures { result ≡ join lo hi }
{
    (lo as u16) + 256 * (hi as u16)
}

// Word w of a segment that holds it: no test of the end, for a caller that has made it.
pub fn word_in(seg: &[u8], least: bool, w: usize) -> u16
    requires { 2 * w + 1 < length seg.now }
    ensures { result ≡ word_by least seg.now w }
{
    let at = 2 * w;
    let a = seg[at];
    let b = seg[at + 1];
    if least {
        return pair(a, b);
    }
    pair(b, a)
}

// Word w, least byte first or most byte first.
pub fn word_at(seg: &[u8], least: bool, w: u32) -> u16
    ensures { result ≡ word_by least seg.now w }
{
    let at = 2 * (w as usize);
    if at + 1 < seg.len() {
        return word_in(seg, least, w as usize);
    }
    let a = byte_at(seg, at);
    if least {
        return pair(a, 0);
    }
    pair(0, a)
}

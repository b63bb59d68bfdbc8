// What is shown of bytes that came from outside.
// Above it: the console. Below it: nothing.
ghost use Rattle.std.specs.Prelude.{◌≡◌, map, min, length, take};
ghost use Rattle.text.specs.Seen.{seen_as};

// What a byte is shown as: itself from a blank up to top, and else a dot.
#[tactic(auto, unfolding(crate::specs::Seen::seen_as))]
fn seen(b: u8, top: u8) -> u8
    ensures { result ≡ seen_as top b }
{
    match b {
        0..32 | 127 => b'.',
        _ if b <= top => b,
        _ => b'.',
    }
}

// Puts what is shown of src at the start of dst, as far as both go, and answers how many bytes.
pub fn visible(src: &[u8], dst: &mut [u8], top: u8) -> usize
    ensures value { result ≡ min (length src.now) (length dst.old) }
    ensures dst_after { take result dst.new ≡ map (seen_as top) (take result src.now) }
{
    let n = src.len().min(dst.len());
    for i in 0..n {
        dst[i] = seen(src[i], top);
    }
    n
}

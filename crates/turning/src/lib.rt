// Turning a segment to the other byte sex: its bytes copied, then the two bytes at each word position written swapped.
// Above: the command that turns a file, and the program of the cases. Below: the numbers of a segment, and the verdict of checks 1 to 8.
#![tactic(auto)]

ghost use Rattle.std.specs.Prelude.{◌≡◌, ◌++◌, ◌+◌, ◌*◌, ◌≤◌, ◌<◌, eqb, length, drop};
ghost use Rattle.basis.specs.Bools.{inside};
ghost use Rattle.segment.specs.Head.{count};
ghost use Rattle.basis.specs.Checks.{passed};
ghost use Rattle.segment.specs.Judge.{judged, ruling_of};
ghost use Rattle.turning.specs.Turn.{framed, swap_at, turned, turn_ruling, output_of};

use segment::{Refusal, Segment};

// Kept: the segment and the output are two parameters throughout, a source and a destination as `copy_from_slice` has them; a struct of the two would
// be built in one place and say no more.

// Writes the two bytes of word w swapped. They come from the segment and never from the output, so that a word that
// is written twice is swapped once.
fn swap_word(seg: &[u8], out: &mut [u8], w: u32)
    requires { (2 * w + 1 < length seg.now) × (length seg.now ≤ length out.old) }
    ensures { out.new ≡ swap_at (eqb w) seg.now out.old }
{
    let at = 2 * (w as usize);
    out[at] = seg[at + 1];
    out[at + 1] = seg[at];
}

// The words from `first` up to `end`.
fn swap_words(seg: &[u8], out: &mut [u8], first: u32, end: u32)
    requires { (first ≤ end) × (2 * end ≤ length seg.now) × (length seg.now ≤ length out.old) }
    ensures { out.new ≡ swap_at (inside first end) seg.now out.old }
{
    for w in first..end {
        swap_word(seg, out, w);
    }
}

// EXITIC and DATASIZE of every routine that is linked.
fn swap_frames(seg: &[u8], out: &mut [u8], n: u16)
    requires { (judged seg.now ≡ passed) × (length seg.now ≤ length out.old) × (n ≡ count seg.now) }
    ensures { out.new ≡ swap_at (framed seg.now (count seg.now)) seg.now out.old }
{
    for k in 1..=n {
        let r = segment::routine_of(seg, k);
        let e = r.entry as u32;
        if e != 0 {
            swap_words(seg, out, e - 1, e + 1);
        }
    }
}

// An accepted segment in the other byte sex, in the first bytes of the output.
fn turn_words(seg: &[u8], out: &mut [u8])
    requires { (judged seg.now ≡ passed) × (length seg.now ≤ length out.old) }
    ensures { out.new ≡ turned seg.now ++ drop (length seg.now) out.old }
{
    let h = segment::head(seg);
    let d = h.dict as u32;
    let n = h.count as u32;
    out[..seg.len()].copy_from_slice(seg);
    swap_words(seg, out, Segment::DICT, Segment::NAME);
    swap_words(seg, out, Segment::SEX, Segment::BODY as u32);
    swap_words(seg, out, d, d + n + 1);
    swap_frames(seg, out, h.count);
}

// Checks 1 to 10, for an output of `room` bytes.
fn judge_turn(seg: &[u8], room: usize) -> Result<(), Refusal>
    ensures { ruling_of result ≡ turn_ruling seg.now room }
{
    checks::judge(seg)?;
    let h = segment::head(seg);
    if h.pool != 0 {
        return Err(Refusal::HasPool);
    }
    if room < seg.len() {
        return Err(Refusal::ShortOutput);
    }
    Ok(())
}

// The segment in the other byte sex, in the first bytes of out; where it is refused, out is unchanged.
pub fn turn(seg: &[u8], out: &mut [u8]) -> Result<(), Refusal>
    ensures answer { ruling_of result ≡ turn_ruling seg.now (length out.old) }
    ensures output { out.new ≡ output_of seg.now out.old }
{
    judge_turn(seg, out.len())?;
    turn_words(seg, out);
    Ok(())
}

// Where the code of a routine ends: before the first word, from its own first byte up, that is known to be no code.
// Above it: the listing of a routine. Below it: the header numbers and routines of `segment`.
ghost use Rattle.std.specs.Prelude.{◌≡◌};
ghost use Rattle.spans.specs.Ends.{nearer, nearer_of, end_by, code_end};

// The first byte of a word, where that lies from start up and below end; else end.
#[tactic(auto, unfolding(crate::specs::Ends::nearer))]
fn nearest(start: usize, end: usize, word: u32) -> usize
    ensures { result ≡ nearer start end word }
{
    let at = 2 * word as usize;
    if start <= at && at < end { at } else { end }
}

// The words of routine k: its word of the dictionary and, if it is linked, EXITIC and DATASIZE.
fn nearest_of(seg: &[u8], start: usize, end: usize, k: u16) -> usize
    ensures { result ≡ nearer_of seg.now start end k }
{
    let h = segment::head(seg);
    let r = segment::routine_of(seg, k);
    let a = nearest(start, end, h.dict as u32 + k as u32);
    if r.entry == 0 {
        return a;
    }
    let b = nearest(start, a, (r.entry - 1) as u32);
    nearest(start, b, r.entry as u32)
}

// The pool's first word and the dictionary's. The pool ends the code too: what stands from there on are constants.
#[tactic(auto, unfolding(crate::specs::Ends::end_by))]
fn common_end(seg: &[u8], start: usize) -> usize
    ensures { result ≡ end_by seg.now start 0 }
{
    let h = segment::head(seg);
    let a = nearest(start, seg.len(), h.pool as u32);
    nearest(start, a, h.dict as u32)
}

// The byte before which the code that begins at start ends, at most the segment's end.
pub fn code_end(seg: &[u8], start: usize) -> usize
    ensures { result ≡ code_end seg.now start }
{
    let mut end = common_end(seg, start);
    for k in 0..segment::head(seg).count {
        end = nearest_of(seg, start, end, k + 1);
    }
    end
}

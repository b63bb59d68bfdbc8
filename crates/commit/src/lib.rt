// The commit of a step: it only writes, and cannot fail. One word, two words, words of the pool or a mark, into one session's region of the memory.
// Above: `machine`, which commits what was judged; below: the definition's `written`, and parts of a memory.
#![tactic(auto, unfolding(basis::specs::Part::part, basis::specs::Part::splice, pmachine::specs::Run::written, crate::specs::Mark::five))]

ghost use Rattle.std.specs.Prelude.{◌≡◌, [], ◌∷◌, ◌+◌, ◌-◌, ◌≤◌, ◌<◌, length, set, eqb};
ghost use Rattle.basis.specs.Part.{part, splice};
ghost use Rattle.pmachine.specs.Pool.{words_from, on_top};
ghost use Rattle.pmachine.specs.Run.{written};
ghost use Rattle.commit.specs.Mark.{mark_of, five};

fn put(region: &mut [u16], at: usize, v: u16)
    requires { at < length region.old }
    ensures { region.new ≡ set region.old at v }
{
    region[at] = v;
}

fn put_both(region: &mut [u16], at: usize, x: u16, y: u16)
    requires { at + 1 < length region.old }
    ensures { region.new ≡ written region.old at (x ∷ y ∷ []) }
{
    put(region, at, x);
    put(region, at + 1, y);
}

fn put_five(region: &mut [u16], m: usize, mark: [u16; 5])
    requires { m + 4 < length region.old }
    ensures { region.new ≡ written region.old m (five mark) }
{
    put_both(region, m, mark[0], mark[1]);
    put_both(region, m + 2, mark[2], mark[3]);
    put(region, m + 4, mark[4]);
}

// n words of a segment from `first` on, as they lie when they were pushed one after another below `top`: each under the one before it. They are written
// from the last on, with one running number. Past the segment's end stand zeros, so nothing can fail.
fn put_all(region: &mut [u16], top: usize, n: usize, seg: &[u8], least: bool, first: u16)
    requires { (n ≤ top) × ((top ≤ length region.old) × (top ≤ 32768)) }
    ensures { region.new ≡ written region.old (top - n) (on_top (words_from least seg.now first n)) }
{
    for left in (0..n).rev() {
        let v = operand::word_at(seg, least, first as u32 + left as u32);
        put(region, top - 1 - left, v);
    }
}

// The word at a place of the region that is words at..end of the memory.
pub fn put_word(mem: &mut [u16], at: usize, end: usize, place: usize, v: u16)
    requires { (at ≤ end) × ((end ≤ length mem.old) × (place < end - at)) }
    ensures { mem.new ≡ splice at end (written (part at end mem.old) place (v ∷ [])) mem.old }
{
    put(&mut mem[at..end], place, v);
}

// Two words, from a place upward.
pub fn put_pair(mem: &mut [u16], at: usize, end: usize, place: usize, x: u16, y: u16)
    requires { (at ≤ end) × ((end ≤ length mem.old) × (place + 1 < end - at)) }
    ensures { mem.new ≡ splice at end (written (part at end mem.old) place (x ∷ y ∷ [])) mem.old }
{
    put_both(&mut mem[at..end], place, x, y);
}

// n words of a segment, from `first` on, pushed below word `top` of the region, sex 0 for least byte first. A call for each sex keeps the loop a call
// of its own, and a part is made of the segment for it: in the step both would take registers from every other instruction.
#[tactic(auto, using(basis::proofs::Part::part_all), unfolding(basis::specs::Part::part, basis::specs::Part::splice))]
pub fn put_block(
    mem: &mut [u16],
    at: usize,
    end: usize,
    top: usize,
    n: usize,
    seg: &[u8],
    first: u16,
    sex: usize,
)
    requires { (at ≤ end) × ((end ≤ length mem.old) × ((n ≤ top) × ((top ≤ end - at) × (top ≤ 32768)))) }
    ensures { mem.new ≡ splice at end (written (part at end mem.old) (top - n) (on_top (words_from (eqb sex 0) seg.now first n))) mem.old }
{
    if sex == 0 {
        put_all(&mut mem[at..end], top, n, &seg[0..], true, first);
    } else {
        put_all(&mut mem[at..end], top, n, &seg[0..], false, first);
    }
}

// The mark of a call, five words by value: MSSTAT, MSDYN, MSIPC, MSENDV, which is 1, and MSPROC.
pub fn mark(parent: u16, caller: u16, next: u16, routine: u16) -> [u16; 5]
    ensures { result ≡ mark_of parent caller next routine }
{
    [parent, caller, next, 1, routine]
}

pub fn put_mark(mem: &mut [u16], at: usize, end: usize, m: usize, mark: [u16; 5])
    requires { (at ≤ end) × ((end ≤ length mem.old) × (m + 4 < end - at)) }
    ensures { mem.new ≡ splice at end (written (part at end mem.old) m (five mark)) mem.old }
{
    put_five(&mut mem[at..end], m, mark);
}

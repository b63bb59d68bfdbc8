// Sentences of fault 6 for a session that has a window: what it names is a word of its window, and what there is are a farm's records or the window's words.
// Above it: the sentences of addresses. Below it: how a sentence is said.
use crate::said::sentence;
use cause::{Numbers, less};
use pond_rows::View;

// The first address of a window.
const FIRST: usize = 32768;

// `address 32787 + 0 is word 19 of its window`, and what is there
pub fn read(n: Numbers, base: u16, i: u16, view: View) {
    let (base, i) = (usize::from(base), usize::from(i));
    sentence(
        b"address # + # is word # of its window",
        &[base, i, less(base + i, FIRST)],
    );
    there(usize::from(n.shared), view);
}

// A store into the window, and what is there, where that word is not.
pub fn stored(n: Numbers, to: u16, view: View) {
    let to = usize::from(to);
    let at = less(to, FIRST);
    sentence(
        b"it stores to address #, which is word # of its window",
        &[to, at],
    );
    let len = usize::from(n.shared);
    if len <= at {
        there(len, view);
    }
    pond_say::text(b", and a window can only be read");
}

// `; farm 12 has 4 records, words 0 to 15`
fn there(len: usize, view: View) {
    let last = less(len, 1);
    match view {
        View::Farm(farm) if len == 0 => {
            sentence(b"; farm # has no records", &[usize::from(farm)]);
        }
        View::Farm(farm) => sentence(
            b"; farm # has # record%, words 0 to #",
            &[usize::from(farm), len / 4, len / 4, last],
        ),
        _ if len == 0 => sentence(b"; the window is empty", &[]),
        _ => sentence(b"; the window has words 0 to #", &[last]),
    }
}

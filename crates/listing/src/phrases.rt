// What an entry of the table says of an instruction: the words behind its mnemonic, some of which stand for operands.
// Above it: the table. Below it: the operands, the words of the pool, and case tables.
use crate::operands::Operands;
use crate::{cases, constants, operands};

// The words behind the first, which is the mnemonic.
pub fn phrase(entry: &[u8], o: Operands) {
    for (n, w) in entry.split(|b| *b == b' ').skip(1).enumerate() {
        if n > 0 {
            pond_say::blanks(1);
        }
        shown(w, o);
    }
}

// A word of a phrase. Some begin with a mark for an operand: # is the first and % the second, ~ the first as a signed number, & the first as
// links, $ as words, ^ as a jump, @ as a routine; ! is the second as a routine, ? the third as words; * is the word of the pool, + the words of
// the pool that are pushed, and : the case table.
fn shown(w: &[u8], o: Operands) {
    let Some((mark, rest)) = w.split_first() else {
        return
    };
    match *mark {
        b'#' => pond_say::number(u64::from(o.x)),
        b'%' => pond_say::number(u64::from(o.y)),
        b'~' => operands::signed(o.x),
        b'&' => operands::links(o.x),
        b'$' => operands::words(o.x),
        b'^' => operands::jump(o.seg.len(), o.next, o.x),
        b'@' => operands::routine(o.seg, o.x),
        b'!' => operands::routine(o.seg, o.y),
        b'*' => operands::pooled(o.seg, o.x),
        b'?' => operands::words(o.z),
        b'+' => constants::pushed(o.seg, o.x, o.y, o.z),
        b':' => cases::range(o.seg, o.x),
        _ => {
            pond_say::text(w);
            return;
        }
    }
    pond_say::text(rest);
}

// Refusal 23 with what exactly was wrong: the number of words, or the record where farm numbers fall. Every other refusal is said by its rule.
// Above it: the commands on the archive, and the opening for a farm. Below it: the archive, the rules, and phrases.
use pond_look::told;
use pond_phrases::say;
use pond_say::Outcome;
use segment::Refusal;
use sound::Bench;

pub fn refused(b: Bench, memory: &[u16], refusal: Refusal) -> Outcome {
    if refusal != Refusal::NotArchive {
        return pond_rules::refused(refusal);
    }
    pond_rules::begun(refusal);
    why(told::region(memory, 0, b.s));
    pond_say::end();
    Outcome::Refused
}

// `; record 5, counted from 0, in words 20 to 23, is of farm 12, and the record before it of farm 17`
fn why(words: &[u16]) {
    if words.len() % 4 != 0 {
        say(
            b"; there @ shared, which is no multiple of 4",
            &[words.len() as u64],
        );
        return;
    }
    let k = archive::falls_at(words);
    if 8192 < k {
        return;
    }
    let at = 4 * k;
    say(
        b"; record #, counted from 0, in words # to #, is of farm #, and the record before it of farm #",
        &[
            k as u64,
            at as u64,
            told::last(at, 4) as u64,
            u64::from(farm(words, at)),
            u64::from(farm(words, at.saturating_sub(4))),
        ],
    );
}

// The farm of the record that begins at a word.
fn farm(words: &[u16], at: usize) -> u16 {
    words.get(at).copied().unwrap_or(0)
}

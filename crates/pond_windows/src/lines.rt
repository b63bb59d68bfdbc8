// The line that tells a session's window.
// Above it: the commands that open a session and show it. Below it: phrases.
use crate::windows::Seen;
use pond_look::told;
use pond_phrases::say;
use pond_rows::View;
use sound::Window;

// At an opening: nothing of a session that sees all shared words.
pub fn opened(s: Seen) {
    match s.view {
        View::All => {}
        View::Window => words(
            s.window,
            b"  window: words # to # of the shared words\n",
            b"  window: empty\n",
        ),
        View::Farm(farm) => of_farm(farm, s.window),
    }
}

pub fn shown(s: Seen) {
    if let View::All = s.view {
        let all = Window {
            first: 0,
            len: s.window.len,
        };
        words(
            all,
            b"  sees all shared words, # to #\n",
            b"  sees no shared words: there are none\n",
        );
        return;
    }
    opened(s);
}

// A phrase for the words of a window, or one for a window that has none.
fn words(w: Window, some: &[u8], none: &[u8]) {
    told::span(if w.len == 0 { none } else { some }, w.first, w.len);
}

// `  farm 12: 12 records, words 16 to 63 of the archive`
fn of_farm(farm: u16, w: Window) {
    let farm = u64::from(farm);
    if w.len == 0 {
        say(b"  farm #: no records in the archive\n", &[farm]);
        return;
    }
    let n = (w.len / 4) as u64;
    say(
        b"  farm #: # record%, words # to # of the archive\n",
        &[
            farm,
            n,
            n,
            w.first as u64,
            told::last(w.first, w.len) as u64,
        ],
    );
}

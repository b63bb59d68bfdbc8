// `bench N S`: a new bench, in place of the one before.
// Above it: the console. Below it: the bench.
use pond_look::Next;
use pond_rows::Bytes;
use pond_say::Outcome;
use sound::Bench;

// The new bench, with every word of the memory zero and no names; or the old one, where the numbers are refused.
pub fn new_bench(b: Bench, memory: &mut [u16], book: &mut [Bytes], n: u64, s: u64) -> Next {
    let out = bench::new_bench(n as usize, s as usize);
    let answer = out.answer;
    let bench = out.bench;
    match answer {
        Ok(_) => {
            memory.fill(0);
            pond_rows::empty(book);
            said(n, s);
            Next {
                bench,
                outcome: Outcome::Done,
            }
        }
        Err(refusal) => Next {
            bench: b,
            outcome: pond_rules::refused(refusal),
        },
    }
}

fn said(n: u64, s: u64) {
    pond_phrases::say(b"bench: # word%, # of them shared\n", &[n, n, s]);
}

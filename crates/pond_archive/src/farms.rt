// `archive` and `archive FARM`: the verdict and the farms, and one farm's records.
// Above it: the console. Below it: the archive, and phrases.
use pond_look::told;
use pond_phrases::say;
use pond_say::Outcome;
use sound::Bench;

// The most farms that are listed.
const MOST: usize = 40;

// `archive: accepted, 8 records of 2 farms`, and a line for each farm.
pub fn archive(b: Bench, memory: &[u16], store: &[u8]) -> Outcome {
    let v = archive::accept(b, memory, store);
    if let Err(refusal) = v {
        return pond_windows::refused(b, memory, refusal);
    }
    accepted(told::region(memory, 0, b.s));
    Outcome::Done
}

fn accepted(words: &[u16]) {
    let (records, _) = words.as_chunks::<4>();
    let n = records.len() as u64;
    if n == 0 {
        pond_say::text(b"archive: accepted, no records\n");
        return;
    }
    let farms = records.chunk_by(same_farm).count() as u64;
    say(
        b"archive: accepted, # record% of # farm%\n",
        &[n, n, farms, farms],
    );
    let mut at: usize = 0;
    for farm in records.chunk_by(same_farm).take(MOST) {
        let len = farm.as_flattened().len();
        line(farm, at, len);
        at = told::past(at, len);
    }
    let more = farms.saturating_sub(MOST as u64);
    if more > 0 {
        say(
            b"  and # more farm%; archive FARM shows one\n",
            &[more, more],
        );
    }
}

// A record's first word is its farm.
fn same_farm(a: &[u16; 4], b: &[u16; 4]) -> bool {
    a[0] == b[0]
}

// `  farm 12: 4 records, words 0 to 15`: its records, which are the len words from one on.
fn line(records: &[[u16; 4]], at: usize, len: usize) {
    let farm = records.first().map_or(0, |r| r[0]);
    let k = records.len() as u64;
    say(
        b"  farm #: # record%, words # to #\n",
        &[u64::from(farm), k, k, at as u64, told::last(at, len) as u64],
    );
}

pub fn farm(b: Bench, memory: &[u16], store: &[u8], farm: u16) -> Outcome {
    let found = archive::range(b, memory, store, farm);
    match found {
        Ok(w) => {
            of_farm(memory, farm, w.first, w.len);
            Outcome::Done
        }
        Err(refusal) => pond_windows::refused(b, memory, refusal),
    }
}

// The farm's range, and its records by the words of its window.
fn of_farm(memory: &[u16], farm: u16, first: usize, len: usize) {
    let farm = u64::from(farm);
    if len == 0 {
        say(b"farm #: no records in the archive\n", &[farm]);
        return;
    }
    let n = (len / 4) as u64;
    say(
        b"farm #: # record%, words # to # of the archive\n",
        &[farm, n, n, first as u64, told::last(first, len) as u64],
    );
    pond_say::text(b"  window word     pond      day  concentration\n");
    rows(told::region(memory, first, len));
}

fn rows(words: &[u16]) {
    let (records, _) = words.as_chunks::<4>();
    for (i, r) in records.iter().enumerate() {
        let [_, pond, day, concentration] = *r;
        pond_say::padded(i.saturating_mul(4) as u64, 13);
        pond_say::padded(u64::from(pond), 9);
        pond_say::padded(u64::from(day), 9);
        pond_say::padded(u64::from(concentration), 15);
        pond_say::end();
    }
}

// `demo`: two farms on one bench with an archive of records, a report that takes one record too many, and the accident of last spring tried again. It needs no
// file, and what it prints is what the same commands print on the files of examples/.
// Above it: the console. Below it: the other commands, as they are: a line is shown, and then done.
#![tactic(auto)]

mod bytes;
mod lines;

use lines::{Deed, LINES, Segment};
use pond_bench::Site;
use pond_look::Wanted;
use pond_rows::Bytes;
use pond_slots::loads;
use sound::Bench;

// The words of a session, and the first of its words that are shown: what a report leaves.
const WORDS: u64 = 32;

const SUM: u64 = 6;

pub fn demo(rt: &HostRuntime) {
    let mut memory = [0u16; 250];
    let mut book = pond_rows::book();
    let made = bench::new_bench(0, 0);
    let mut bench = made.bench;
    for line in LINES {
        pond_say::text(line.says);
        if let Deed::Load(segment) = line.does {
            bench = loaded(bench, &memory, &mut book, segment);
        } else {
            let mut site = Site {
                bench,
                memory: &mut memory,
                store: &bytes::STORE,
                book: &mut book,
            };
            done(rt, &mut site, line.does);
            bench = site.bench;
        }
    }
}

// Of a site behind a `&mut` the memory cannot be lent as `&` beside the book as `&mut`: tried, the borrow checker does not cover it.
fn loaded(b: Bench, memory: &[u16], book: &mut [Bytes], segment: Segment) -> Bench {
    let next = loads::asked(
        b,
        memory,
        &bytes::STORE,
        book,
        segment.name,
        segment.file,
        segment.slot,
        segment.start,
        segment.len,
    );
    next.bench
}

// No line of the demo fails.
fn done(rt: &HostRuntime, site: &mut Site, deed: Deed) {
    match deed {
        Deed::Records => made(site),
        Deed::Open(slot, name) => {
            site.open(slot, WORDS, name);
        }
        Deed::OpenFor(slot, name, farm) => {
            site.open_for(slot, WORDS, name, farm);
        }
        Deed::Turn(session, steps) => {
            site.turn(rt, session, steps);
        }
        _ => seen(site, deed),
    }
}

// The lines that change nothing.
fn seen(site: &Site, deed: Deed) {
    match deed {
        Deed::Archive => {
            pond_archive::archive(site.bench, site.memory, site.store);
        }
        Deed::Words(session, count) => {
            let wanted = Wanted::Part(SUM, count);
            pond_look::words(site.bench, site.memory, site.book, session, wanted);
        }
        Deed::Map => pond_look::map(site.bench, site.book),
        _ => {}
    }
}

// The bench, and its archive from the text of farms.csv.
fn made(site: &mut Site) {
    let mut room = [0u8; 64];
    let records = pond_sheet::read(b"farms.csv", &bytes::FARMS, &mut room).unwrap_or(b"");
    let next = pond_archive::made(
        site.bench,
        site.memory,
        site.book,
        250,
        b"farms.csv",
        records,
    );
    site.bench = next.bench;
}

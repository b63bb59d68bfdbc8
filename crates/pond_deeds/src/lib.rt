// The commands on the console's bench done: each is one function of `pond_slots`, `pond_archive`, `pond_bench`, `pond_closer` or `pond_save`, which asks the bench.
// Above it: the console. Below it: the words of the commands, which say what is to be done.
#![tactic(auto)]

use pond_bench::{Next, Site, Wanted};
use pond_rows::Bytes;
use pond_say::Outcome;
use pond_words::{Command, Deed, Given, Opening, Sight};
use sound::Bench;

// The command on the tape. A new bench is made over all of the memory, and every other command is lent the bench's own words.
pub fn follow(
    rt: &HostRuntime,
    c: Command,
    b: Bench,
    memory: &mut [u16],
    store: &mut [u8],
    book: &mut [Bytes],
) -> Next {
    let Some(d) = pond_words::read(book, c) else {
        return kept(b, Outcome::Typing);
    };
    match d {
        Deed::Bench(n, s) => pond_slots::new_bench(b, memory, book, n, s),
        Deed::BenchOf(n, file) => pond_archive::bench_of(rt, b, memory, book, n, file),
        _ => match memory.get_mut(..b.n) {
            Some(words) => lent(rt, d, b, words, store, book),
            None => kept(b, Outcome::Done),
        },
    }
}

// The bench as it was.
fn kept(bench: Bench, outcome: Outcome) -> Next {
    Next { bench, outcome }
}

fn lent(
    rt: &HostRuntime,
    d: Deed,
    bench: Bench,
    memory: &mut [u16],
    store: &mut [u8],
    book: &mut [Bytes],
) -> Next {
    match d {
        Deed::Load(slot, file) => {
            return pond_slots::load(rt, bench, memory, store, book, slot, b"", file);
        }
        Deed::LoadNamed(name, file) => {
            return pond_slots::load_named(rt, bench, memory, store, book, name, file);
        }
        Deed::Fill(file) => {
            return kept(bench, pond_slots::fill(rt, bench, memory, book, file));
        }
        Deed::Records(file) => {
            return kept(bench, pond_archive::records(rt, bench, memory, book, file));
        }
        _ => {}
    }
    let mut site = Site {
        bench,
        memory,
        store,
        book,
    };
    let outcome = on_sessions(rt, d, &mut site);
    kept(site.bench, outcome)
}

// The commands that change a session, or nothing.
fn on_sessions(rt: &HostRuntime, d: Deed, site: &mut Site) -> Outcome {
    match d {
        Deed::Open(opening, sight) => opened(opening, sight, site),
        Deed::Turn(s, steps) => site.turn(rt, s, steps),
        Deed::Close(s) => site.close(s),
        Deed::Step(s, steps) => pond_closer::step(site, rt, s, steps),
        _ => seen(rt, d, site),
    }
}

fn opened(o: Opening, sight: Sight, site: &mut Site) -> Outcome {
    match sight {
        Sight::All => site.open(o.slot, o.words, o.name),
        Sight::Farm(farm) => site.open_for(o.slot, o.words, o.name, farm),
        Sight::Window(first, count) => site.open_window(o.slot, o.words, o.name, first, count),
    }
}

// The commands that change nothing.
fn seen(rt: &HostRuntime, d: Deed, site: &Site) -> Outcome {
    match d {
        Deed::Show(s) => return shown(site, s),
        Deed::Words(s, p) => {
            return pond_bench::words(site.bench, site.memory, site.book, s, wanted(p));
        }
        Deed::Shared(p) => return pond_bench::shared(site.bench, site.memory, wanted(p)),
        Deed::Archive => return pond_archive::archive(site.bench, site.memory, site.store),
        Deed::Farm(farm) => {
            return pond_archive::farm(site.bench, site.memory, site.store, farm);
        }
        Deed::Save(s, file) => {
            return pond_save::save(rt, site.bench, site.memory, site.book, s, file);
        }
        Deed::Map => pond_bench::map(site.bench, site.book),
        Deed::Slots => pond_slots::slots(site.bench, site.store, site.book),
        _ => {}
    }
    Outcome::Done
}

// The words that are wanted, where FROM and COUNT, or FROM, or none of them is given.
fn wanted(p: Given) -> Wanted {
    match p {
        Given::Nothing => Wanted::All,
        Given::One(from) => Wanted::From(from),
        Given::Two(from, count) => Wanted::Part(from, count),
    }
}

fn shown(site: &Site, session: u64) -> Outcome {
    let o = site.show(session);
    if pond_say::went(o) {
        pond_closer::closer(site, session);
    }
    o
}

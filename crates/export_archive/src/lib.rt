// Entries of a bench's archive asked many times under a C name, so that speed/ can time them. Nothing else calls it, and it asks nothing of its caller.
// Below: `archive`, `bench`. It stands apart from `export_bench`, since the compiler shapes the turn's loop there by what else stands beside it.
#![tactic(auto)]

use bench::{Bench, Refusal};

// What is asked, by its number in speed/entries.c.
#[derive(Clone, Copy)]
enum Request {
    // The range of a farm.
    Find,
    // A session of 1,000 words for it on slot 0.
    Open,
}

impl From<u64> for Request {
    fn from(what: u64) -> Self {
        match what {
            0 => Request::Find,
            _ => Request::Open,
        }
    }
}

// One more where the request was not refused: the caller can tell that it timed what it meant to. `export_bench` has the same for
// itself: a crate below both for these few lines would be no plainer.
fn counted(done: u64, answer: Result<u32, Refusal>) -> u64 {
    match answer {
        Ok(_) => done % 4294967296 + 1,
        Err(_) => done,
    }
}

fn ask(
    b: Bench,
    memory: &mut [u16],
    store: &[u8],
    asked: Request,
    farm: u16,
) -> Result<u32, Refusal> {
    match asked {
        Request::Find => archive::range(b, memory, store, farm).map(|_| 0),
        Request::Open => archive::open_farm(b, memory, store, 0, 1000, farm).answer,
    }
}

// The same request of the same bench so many times; answers how many were not refused. The bench after each is dropped, so that it can be asked again.
fn rounds_of(
    b: Bench,
    memory: &mut [u16],
    store: &[u8],
    asked: Request,
    farm: u16,
    rounds: usize,
) -> u64 {
    (0..rounds).fold(
        0,
        |done, _| counted(done, ask(b, memory, store, asked, farm)),
    )
}

// Asks a bench with the whole store in slot 0 and no session, whose first so many words are an archive. With no round it only builds the bench, so that
// a caller can take the time of that off.
#[unsafe(no_mangle)]
pub extern "C" fn archive_asked(
    memory: &mut [u16],
    store: &[u8],
    shared: usize,
    what: u64,
    farm: u64,
    rounds: usize,
) -> u64 {
    let new = bench::new_bench(memory.len(), shared);
    let out = bench::load(new.bench, memory, store, 0, 0, store.len());
    rounds_of(
        out.bench,
        memory,
        store,
        Request::from(what),
        (farm % 65536) as u16,
        rounds,
    )
}

// `fill FILE`: the shared words from a file, two bytes a word, least byte first; and from bytes that were made of records.
// Above it: the console, and the commands on the archive. Below it: files.
use pond_look::told;
use pond_phrases::say;
use pond_rows::Bytes;
use pond_say::Outcome;
use sound::Bench;

// More bytes than the most shared words take: a file that fills this room is too long.
const ROOM: usize = 65538;

fn space() -> [u8; 65538] {
    [0u8; 65538]
}

pub fn fill(
    rt: &HostRuntime,
    b: Bench,
    memory: &mut [u16],
    book: &[Bytes],
    file: &[u8],
) -> Outcome {
    if pond_windows::held(b, book) {
        return Outcome::Typing;
    }
    let mut room = space();
    let Some(bytes) = pond_files::read(rt, file, &mut room) else {
        return Outcome::File;
    };
    from_bytes(b, memory, file, bytes)
}

// Fills, where the bytes are whole words and no more than are shared.
pub fn from_bytes(b: Bench, memory: &mut [u16], file: &[u8], bytes: &[u8]) -> Outcome {
    let n = bytes.len() / 2;
    if b.s < n {
        too_long(b.s, file, bytes.len());
        return Outcome::File;
    }
    if bytes.len() % 2 != 0 {
        odd(file, bytes.len());
        return Outcome::File;
    }
    pour(memory, bytes);
    filled(n, file);
    pond_say::end();
    Outcome::Done
}

// The first words from records that were judged, eight bytes each.
pub fn from_records(memory: &mut [u16], file: &[u8], bytes: &[u8]) {
    let n = bytes.len() / 2;
    pour(memory, bytes);
    filled(n, file);
    let k = (n / 4) as u64;
    say(b": # record%\n", &[k, k]);
}

// Into the first words, least byte first.
fn pour(memory: &mut [u16], bytes: &[u8]) {
    let (words, _) = bytes.as_chunks::<2>();
    for (to, word) in memory.iter_mut().zip(words) {
        *to = u16::from_le_bytes(*word);
    }
}

// `filled shared words 0 to 7 from FILE`
fn filled(n: usize, file: &[u8]) {
    if n == 0 {
        pond_say::text(b"filled no shared words from ");
    } else {
        told::span(b"filled shared words # to # from ", 0, n);
    }
    pond_say::path(file);
}

fn cannot(file: &[u8]) {
    pond_say::text(b"cannot fill: ");
    pond_say::path(file);
}

fn odd(file: &[u8], bytes: usize) {
    cannot(file);
    say(
        b" has # byte%, and a word takes two\n",
        &[bytes as u64, bytes as u64],
    );
}

fn too_long(s: usize, file: &[u8], bytes: usize) {
    cannot(file);
    say(b" has # byte%", &[bytes as u64, bytes as u64]);
    if bytes == ROOM {
        pond_say::text(b" or more");
    }
    say(
        b", and # shared word% have room for #\n",
        &[s as u64, s as u64, room(s)],
    );
}

fn room(s: usize) -> u64 {
    if 32768 < s {
        return 0;
    }
    2 * s as u64
}

// A text file of records, judged whole and turned into bytes.
// Above it: the commands that fill the archive, and run. Below it: files, and records as text.
use pond_phrases::say;

// The most bytes of such a file.
const MOST: usize = 524288;

// One byte more, so that a longer file is told from it.
fn space() -> [u8; 524289] {
    [0u8; 524289]
}

// The file's records as bytes, eight bytes each; where it cannot be taken, it has been said why not.
pub fn read<'a>(rt: &HostRuntime, file: &[u8], bytes: &'a mut [u8]) -> Option<&'a [u8]> {
    let mut room = space();
    let text = pond_files::read(rt, file, &mut room)?;
    of_text(file, text, bytes)
}

fn of_text<'a>(file: &[u8], text: &[u8], bytes: &'a mut [u8]) -> Option<&'a [u8]> {
    if MOST < text.len() {
        cannot(file, b" has more than # bytes\n");
        return None;
    }
    let records = pond_sheet::read(file, text, bytes)?;
    if records.is_empty() {
        cannot(file, b" has no records\n");
        return None;
    }
    Some(records)
}

fn cannot(file: &[u8], phrase: &[u8]) {
    pond_say::text(b"cannot fill: ");
    pond_say::path(file);
    say(phrase, &[MOST as u64]);
}

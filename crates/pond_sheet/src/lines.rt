// The lines of a sheet, one after another, up to the first that cannot be taken.
// Above it: the commands that fill the archive. Below it: the fields of a line, and what is said of a wrong one.
use crate::complaints::{Wrong, complain};
use crate::fields::{Record, fields_of, inked};
use text::front;

// The most records that an archive has.
const MOST: usize = 8192;

// What a line is: blank or a remark, a heading, or a record.
#[derive(Clone, Copy)]
enum Line {
    Nothing,
    Heading,
    Record(Record),
}

// How many records there were, the last one's farm, and whether a heading can still come.
#[derive(Clone, Copy)]
struct Sheet {
    count: usize,
    farm: Option<u16>,
    fresh: bool,
}

// Reads all of a text, and puts its records into out, eight bytes each: these bytes are answered. Where a line cannot be taken it has been said why not, and what
// stands in out is of no use.
pub fn read<'a>(file: &[u8], text: &[u8], out: &'a mut [u8]) -> Option<&'a [u8]> {
    let mut s = Sheet {
        count: 0,
        farm: None,
        fresh: true,
    };
    let mut number: u64 = 0;
    for line in unmarked(text).split_inclusive(|b| *b == b'\n') {
        number = number.saturating_add(1);
        match s.judged(line) {
            Ok(Line::Nothing) => {}
            Ok(Line::Heading) => {
                s.fresh = false;
            }
            Ok(Line::Record(r)) => {
                put(out, s.count, r);
                s = s.after(r);
            }
            Err(wrong) => {
                complain(file, number, wrong);
                return None;
            }
        }
    }
    Some(front(out, s.count.saturating_mul(8)))
}

// Behind the three bytes with which some programs mark a text as UTF-8.
fn unmarked(text: &[u8]) -> &[u8] {
    text.strip_prefix(b"\xEF\xBB\xBF").unwrap_or(text)
}

impl Sheet {
    // What the next line is.
    fn judged<'a>(&self, line: &'a [u8]) -> Result<Line, Wrong<'a>> {
        let f = fields_of(line);
        if !f.ink || is_remark(line) {
            return Ok(Line::Nothing);
        }
        if self.fresh && !f.numeric {
            return Ok(Line::Heading);
        }
        let r = f.record()?;
        if let Some(before) = self.farm {
            if r.farm < before {
                return Err(Wrong::Falls {
                    before,
                    farm: r.farm,
                });
            }
        }
        if MOST <= self.count {
            return Err(Wrong::TooMany);
        }
        Ok(Line::Record(r))
    }

    // The sheet with one record more.
    fn after(self, r: Record) -> Sheet {
        Sheet {
            count: self.count.saturating_add(1),
            farm: Some(r.farm),
            fresh: false,
        }
    }
}

// Whether the first byte of ink is a #.
fn is_remark(line: &[u8]) -> bool {
    matches!(inked(line), [b'#', ..])
}

// Record k into its eight bytes, each word least byte first.
fn put(out: &mut [u8], k: usize, r: Record) {
    let (records, _) = out.as_chunks_mut::<8>();
    if let Some(to) = records.get_mut(k) {
        let [a, b] = r.farm.to_le_bytes();
        let [c, d] = r.pond.to_le_bytes();
        let [e, f] = r.day.to_le_bytes();
        let [g, h] = r.concentration.to_le_bytes();
        *to = [a, b, c, d, e, f, g, h];
    }
}

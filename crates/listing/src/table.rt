// Every first byte of appendix B: its mnemonic and, where document 01 carries it, what it does.
// Above it: the lines of a listing. Below it: the rows, and how what stands behind a mnemonic is said.
use crate::operands::Operands;
use crate::{phrases, rows};
use instruction::Instruction;
use text::word;

// What appendix B has for a first byte: the mnemonic, or a dash where it has none, with the phrase behind it; and the number of a short form,
// which is below 100, and is also its operand.
#[derive(Clone, Copy)]
pub struct Entry {
    words: &'static [u8],
    short: Option<u8>,
}

impl Entry {
    pub fn of(first: u8) -> Entry {
        if first < 128 {
            return Entry {
                words: rows::SHORT[usize::from(first / 8)],
                short: Some(number(first)),
            };
        }
        Entry {
            words: rows::LONG[usize::from(first - 128)],
            short: None,
        }
    }

    fn mnemonic(self) -> &'static [u8] {
        word(self.words, 0)
    }

    // Whether a dash stands in place of the mnemonic.
    pub fn is_unused(self) -> bool {
        self.mnemonic() == b"-".as_slice()
    }

    // Prints the mnemonic, with the number of a short form, or a dash, and answers how many characters that were.
    pub fn name(self) -> usize {
        let name = self.mnemonic();
        pond_say::text(name);
        match self.short {
            Some(n) if !self.is_unused() => {
                pond_say::number(u64::from(n));
                name.len() + if n < 10 { 1 } else { 2 }
            }
            _ => name.len(),
        }
    }

    // What the carried instruction that begins with this byte does.
    pub fn meaning(self, seg: &[u8], i: Instruction) {
        phrases::phrase(
            self.words,
            Operands {
                seg,
                x: self.short.map_or(i.x, u16::from),
                y: i.y,
                z: i.z,
                next: i.next,
            },
        );
    }
}

// The number of a short form: SLDC from 0 up, SLDL, SLDO, SLLA, SSTL and SCXG from 1 up, SIND from 0 up.
fn number(first: u8) -> u8 {
    match first {
        0..=31 => first,
        32..=95 => first % 16 + 1,
        96..=119 => first % 8 + 1,
        _ => first % 8,
    }
}

// Case tables as a person reads them: the indexes that XJP has a target for, and in a listing a line for each of them.
// Above it: what an instruction does, and the lines of a listing. Below it: words of the pool, and where a jump leads.
ghost use Rattle.std.specs.Prelude.{◌≤◌};

use crate::{constants, operands};
use segment::Segment;

// The number of XJP.
const XJP: u8 = 214;

// How many targets are listed of one table.
const LISTED: u32 = 32;

// Why a table cannot be read: there is no pool, or its two bounds lie too high in the segment with this header.
#[derive(Clone, Copy)]
enum Missing {
    Pool,
    Bounds(Segment),
}

// The table at word b of the pool, and its two bounds, which stand in front of it.
#[derive(Clone, Copy)]
struct Table<'a> {
    seg: &'a [u8],
    head: Segment,
    b: u16,
    low: u16,
    high: u16,
}

impl<'a> Table<'a> {
    fn read(seg: &'a [u8], b: u16) -> Result<Table<'a>, Missing> {
        let head = segment::head(seg);
        if head.pool == 0 {
            return Err(Missing::Pool);
        }
        let at = u32::from(head.pool) + u32::from(b);
        if head.reals < at as usize + 2 {
            return Err(Missing::Bounds(head));
        }
        Ok(Table {
            seg,
            head,
            b,
            low: operand::word_at(seg, head.least, at),
            high: operand::word_at(seg, head.least, at + 1),
        })
    }

    // The word of the segment in which its first bound stands.
    fn place(self) -> u32
        ensures { result ≤ 131070 }
    {
        u32::from(self.head.pool) + u32::from(self.b)
    }

    // How many indexes are in its range, whose bounds are in two's complement.
    fn arms(self) -> u32
        ensures { result ≤ 65536 }
    {
        if compare::leq(self.low, self.high) == 1 {
            return u32::from(word::sub(self.high, self.low)) + 1;
        }
        0
    }

    // How many of the words of its indexes can be read, from the lowest on.
    fn readable(self) -> u32
        ensures { result ≤ 65536 }
    {
        let from = self.place() as usize + 2;
        let there = self.head.reals.saturating_sub(from);
        (self.arms() as usize).min(there) as u32
    }

    // The word of the index that is k above the lowest, in the segment's own byte sex: how far its target is.
    fn arm(self, k: u16) -> u16 {
        operand::word_at(self.seg, self.head.least, self.place() + 2 + u32::from(k))
    }

    // A line for each index whose word can be read, as many as are listed, and then what else is in the range.
    fn list(self, next: usize) {
        let n = self.readable();
        for k in 0..n.min(LISTED) as u16 {
            self.line(k, next);
        }
        if n > LISTED {
            pond_say::text(b"    and ");
            pond_say::number(u64::from(n - LISTED));
            pond_say::text(b" more\n");
        }
        if n < self.arms() {
            self.unread(n);
        }
    }

    // The line of the index that is k above the lowest.
    fn line(self, k: u16, next: usize) {
        let index = word::add(self.low, k);
        pond_say::text(b"    ");
        indexes(index, index);
        pond_say::text(b": byte ");
        operands::jump(self.seg.len(), next, self.arm(k));
        pond_say::end();
    }

    // The indexes from the n-th above the lowest on, whose words lie too high.
    fn unread(self, n: u32) {
        pond_say::text(b"    ");
        indexes(word::add(self.low, (n % 65536) as u16), self.high);
        if self.head.reals < self.head.words {
            pond_say::text(b": in the real pool\n");
        } else {
            pond_say::text(b": outside the pool\n");
        }
    }
}

// Where a table stands, and its range.
pub fn range(seg: &[u8], b: u16) {
    match Table::read(seg, b) {
        Ok(t) => {
            constants::place(t.place(), t.place());
            pond_say::text(b"), ");
            if t.arms() == 0 {
                pond_say::text(b"no index is in its range");
            } else {
                indexes(t.low, t.high);
            }
        }
        Err(Missing::Pool) => pond_say::text(b"(no pool)"),
        Err(Missing::Bounds(h)) => {
            let at = u32::from(h.pool) + u32::from(b);
            constants::place(at, at + 1);
            pond_say::text(b", the last");
            constants::beyond(h, at + 1);
            pond_say::text(b")");
        }
    }
}

// `index 3` or `index 1 to 4`
fn indexes(first: u16, last: u16) {
    pond_say::text(b"index ");
    pond_say::signed(first);
    if first != last {
        pond_say::text(b" to ");
        pond_say::signed(last);
    }
}

// Behind the line of an XJP a line for each index of its table. Behind any other line nothing, and nothing of a table whose bounds cannot be read.
pub fn arms(seg: &[u8], at: usize) {
    if seg.len() <= at {
        return;
    }
    let i = instruction::read(seg, at);
    if i.first == XJP && i.whole {
        if let Ok(t) = Table::read(seg, i.x) {
            t.list(i.next);
        }
    }
}

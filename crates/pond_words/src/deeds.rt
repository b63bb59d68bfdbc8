// The commands on a bench, with the numbers and names that their words say. Nothing is done here.
// Above it: what does them. Below it: forms, numbers and names.
use crate::expects;
use crate::expects::{Given, numbers_at};
use crate::forms::{Command, Form, expected, fits, is_number, stands};
use numbers::NoNumber;
use pond_rows::{Bytes, row};

// What is to be done, with the numbers of slots and sessions, new names and files.
#[derive(Clone, Copy)]
pub enum Deed<'a> {
    Map,
    Slots,
    Fill(&'a [u8]),
    Show(u64),
    Close(u64),
    Bench(u64, u64),
    BenchOf(u64, &'a [u8]),
    Load(u64, &'a [u8]),
    LoadNamed(&'a [u8], &'a [u8]),
    Turn(u64, u64),
    Save(u64, &'a [u8]),
    Step(u64, u64),
    Open(Opening<'a>, Sight),
    Archive,
    Farm(u16),
    Records(&'a [u8]),
    Words(u64, Given),
    Shared(Given),
}

// An opening: slot, words and the new name, which has no bytes where none is given.
#[derive(Clone, Copy)]
pub struct Opening<'a> {
    pub slot: u64,
    pub words: u64,
    pub name: &'a [u8],
}

// Which shared words a session is opened for: all, a farm's, or so many from one on.
#[derive(Clone, Copy, Debug, PartialEq, Eq)]
pub enum Sight {
    All,
    Farm(u16),
    Window(u64, u64),
}

// The command's deed, where its words can be followed; else it has been said why not.
pub fn read<'a>(book: &[Bytes], c: Command<'a>) -> Option<Deed<'a>> {
    if !fits(c.form, c.n) {
        expected(c.form);
        return None;
    }
    let first = row(c.tape, 1);
    match c.form {
        Form::Map => Some(Deed::Map),
        Form::Slots => Some(Deed::Slots),
        Form::Fill => Some(Deed::Fill(first)),
        Form::Records => Some(Deed::Records(first)),
        Form::Archive => archive(first, c.n),
        Form::Bench => bench(c),
        Form::Load => load(book, first, row(c.tape, 2)),
        Form::Open => open(book, c),
        Form::Shared => Some(Deed::Shared(numbers_at(c.form, c.tape, 1, c.n)?)),
        _ => of_session(book, c),
    }
}

// `bench N S`, or `bench N records FILE`.
fn bench(c: Command) -> Option<Deed> {
    if c.n == 3 {
        return bench_of(c.tape);
    }
    let n = expects::number(row(c.tape, 1), c.form)?;
    let s = expects::number(row(c.tape, 2), c.form)?;
    Some(Deed::Bench(n, s))
}

fn bench_of(tape: &[Bytes]) -> Option<Deed> {
    if !matches!(row(tape, 2), b"records") {
        expected(Form::Bench);
        return None;
    }
    let n = expects::number(row(tape, 1), Form::Bench)?;
    Some(Deed::BenchOf(n, row(tape, 3)))
}

// The whole archive, or one farm's records.
fn archive(farm: &[u8], n: u8) -> Option<Deed<'_>> {
    if n == 0 {
        return Some(Deed::Archive);
    }
    Some(Deed::Farm(expects::farm(farm, Form::Archive)?))
}

// A slot that is given as a number is that slot; a name is a new one, for the lowest slot that is free.
fn load<'a>(book: &[Bytes], slot: &'a [u8], file: &'a [u8]) -> Option<Deed<'a>> {
    let n = numbers::number_of(slot);
    if n != Err(NoNumber::Not) {
        return Some(Deed::Load(expects::value(n, slot)?, file));
    }
    if expects::new_slot(book, slot) {
        return Some(Deed::LoadNamed(slot, file));
    }
    None
}

// `open [NAME] SLOT WORDS`, and behind it `for FARM` or `window FIRST COUNT`.
fn open<'a>(book: &[Bytes], c: Command<'a>) -> Option<Deed<'a>> {
    if stands(c, 1, b"for") {
        let o = order_of(book, c.tape, c.n.saturating_sub(2))?;
        let farm = expects::farm(row(c.tape, usize::from(c.n)), c.form)?;
        return Some(Deed::Open(o, Sight::Farm(farm)));
    }
    if stands(c, 2, b"window") {
        let o = order_of(book, c.tape, c.n.saturating_sub(3))?;
        let first = expects::number(row(c.tape, usize::from(c.n.saturating_sub(1))), c.form)?;
        let count = expects::number(row(c.tape, usize::from(c.n)), c.form)?;
        return Some(Deed::Open(o, Sight::Window(first, count)));
    }
    let o = order_of(book, c.tape, c.n)?;
    Some(Deed::Open(o, Sight::All))
}

// `SLOT WORDS`, or `NAME SLOT WORDS`, in the first n words behind the verb.
fn order_of<'a>(book: &[Bytes], tape: &'a [Bytes], n: u8) -> Option<Opening<'a>> {
    let name = row(tape, 1);
    match n {
        2 => ordered(book, name, row(tape, 2), b""),
        3 if !is_number(name) => {
            if expects::new_session(book, name) {
                return ordered(book, row(tape, 2), row(tape, 3), name);
            }
            None
        }
        _ => {
            expected(Form::Open);
            None
        }
    }
}

fn ordered<'a>(book: &[Bytes], slot: &[u8], words: &[u8], name: &'a [u8]) -> Option<Opening<'a>> {
    let slot = expects::slot(book, slot)?;
    let words = expects::number(words, Form::Open)?;
    Some(Opening { slot, words, name })
}

// The commands whose first word is a session. Its numbers are read before it.
fn of_session<'a>(book: &[Bytes], c: Command<'a>) -> Option<Deed<'a>> {
    // behind the session; of `save` the word there is a file
    let count = if c.form == Form::Save {
        0
    } else {
        c.n.saturating_sub(1)
    };
    let p = numbers_at(c.form, c.tape, 2, count)?;
    let session = expects::session(book, row(c.tape, 1))?;
    Some(match c.form {
        Form::Show => Deed::Show(session),
        Form::Close => Deed::Close(session),
        Form::Save => Deed::Save(session, row(c.tape, 2)),
        Form::Turn => Deed::Turn(session, first_or(p, 0)),
        // one step where no number is given
        Form::Step => Deed::Step(session, first_or(p, 1)),
        _ => Deed::Words(session, p),
    })
}

fn first_or(p: Given, none: u64) -> u64 {
    match p {
        Given::Nothing => none,
        Given::One(n) | Given::Two(n, _) => n,
    }
}

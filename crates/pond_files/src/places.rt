// What may be written: a name that is not taken, and a regular file; never a link, a folder, a device or a pipe. The system is asked, and the
// answer is judged by one function.
// Above it: the writing. Below it: `std`.
ghost use Rattle.std.specs.Prelude.{◌≡◌, ◌↔◌, false, true, Ok};

use crate::errors::Failure;
use crate::reads::name;
use std::fs::{File, OpenOptions};
use std::io::{Seek, SeekFrom};
use std::{fs, io};

// A name that may be written: a new one, or one of a file that is replaced.
#[derive(Clone, Copy)]
pub enum Place {
    New,
    Replaced,
}

// A name is judged by what the system says of it: whether it is a link, why it is not opened, and whether what was opened can be cut.
pub fn asked(rt: &HostRuntime, path: &[u8]) -> Result<Place, Failure> {
    judged(is_link(rt, path), cuts(rt, path))
}

// Whether what the name opens can be cut.
fn cuts(rt: &HostRuntime, path: &[u8]) -> Result<bool, Failure> {
    let file = update(rt, path)?;
    Ok(can_be_cut(&file))
}

// The file opened for reading and writing, its bytes as they are.
pub fn update(rt: &HostRuntime, path: &[u8]) -> io::Result<File> {
    OpenOptions::new()
        .read(true)
        .write(true)
        .open(rt, name(path))
}

// A file is replaced only where it is no link, was opened, and is a regular file.
fn judged(link: bool, regular: Result<bool, Failure>) -> Result<Place, Failure>
    ensures { (result ≡ Ok Place.Replaced) ↔ (link ≡ false) × (regular ≡ Ok true) }
{
    if link {
        return Err(Failure::Link);
    }
    match regular {
        Ok(true) => Ok(Place::Replaced),
        Ok(false) => Err(Failure::NoFile),
        Err(Failure::NotThere) => Ok(Place::New),
        Err(why) => Err(why),
    }
}

// Only a regular file can be given a length, here the one that it has.
fn can_be_cut(mut file: &File) -> bool {
    match file.seek(SeekFrom::End(0)) {
        Ok(size) => file.set_len(size).is_ok(),
        Err(_) => false,
    }
}

// Whether the name is a link. A name that is too long is none.
fn is_link(rt: &HostRuntime, path: &[u8]) -> bool {
    fs::symlink_metadata(rt, name(ended(path))).is_ok_and(|found| found.is_symlink())
}

// The path as C reads it, up to a 0.
fn ended(path: &[u8]) -> &[u8] {
    let end = path.iter().position(|b| *b == 0);
    text::front(path, end.unwrap_or(path.len()))
}

// A whole file written. A new one goes to a temporary name beside it and is renamed when all of it is on the disk. One that is there keeps its mode, owner
// and links: the output goes to the temporary first, and then into the file itself; so at every moment the old file or the temporary is whole.
// Above it: the commands on files. Below it: what may be written, and `std`.
use crate::errors::{Failure, cannot};
use crate::places::{Place, asked, update};
use crate::reads::name;
use std::fs::{File, OpenOptions};
use std::io::{Seek, SeekFrom, Write};
use std::{fs, io};

// Writes the file and answers true, or says why it cannot.
pub fn write(rt: &HostRuntime, path: &[u8], bytes: &[u8]) -> bool {
    match by_temporary(rt, path, bytes) {
        Ok(()) => true,
        Err(why) => {
            cannot(b"cannot write ", path, why);
            false
        }
    }
}

// By a temporary beside the file. Where its name is taken, the failure says that it is in the way.
fn by_temporary(rt: &HostRuntime, path: &[u8], bytes: &[u8]) -> Result<(), Failure> {
    let place = asked(rt, path)?;
    let mut room = [0u8; 4096];
    let n = text::joined(path, b".pond-new", &mut room);
    if n == 0 {
        return Err(Failure::LongName);
    }
    write_by(rt, text::front(&room, n), path, bytes, place)
}

fn write_by(
    rt: &HostRuntime,
    temporary: &[u8],
    path: &[u8],
    bytes: &[u8],
    place: Place,
) -> Result<(), Failure> {
    let file = create(rt, temporary)?;
    or_removed(rt, temporary, filled(file, bytes))?;
    match place {
        Place::New => or_removed(rt, temporary, fs::rename(rt, name(temporary), name(path)))?,
        Place::Replaced => replaced(rt, temporary, path, bytes)?,
    }
    Ok(())
}

// A new file, opened for writing; an error where its name is taken.
fn create(rt: &HostRuntime, path: &[u8]) -> io::Result<File> {
    OpenOptions::new()
        .write(true)
        .create_new(true)
        .open(rt, name(path))
}

// A temporary that cannot be removed is left.
fn unlink(rt: &HostRuntime, temporary: &[u8]) {
    let _ = fs::remove_file(rt, name(temporary));
}

// What a step came to. Where it failed, the temporary goes.
fn or_removed<T: Drop>(rt: &HostRuntime, temporary: &[u8], step: io::Result<T>) -> io::Result<T> {
    if step.is_err() {
        unlink(rt, temporary);
    }
    step
}

// The temporary is removed once the file is whole, or is as it was.
fn replaced(rt: &HostRuntime, temporary: &[u8], path: &[u8], bytes: &[u8]) -> io::Result<()> {
    let file = or_removed(rt, temporary, with_room(rt, path, bytes))?;
    overwritten(file, bytes)?;
    unlink(rt, temporary);
    Ok(())
}

fn with_room(rt: &HostRuntime, path: &[u8], bytes: &[u8]) -> io::Result<File> {
    let file = update(rt, path)?;
    made_room(&file, bytes)?;
    Ok(file)
}

// The output's room on the disk is taken at the file's end first: where there is none, the file gets its length back, and is as it was. Then the
// writing begins at its first byte.
fn made_room(mut file: &File, bytes: &[u8]) -> io::Result<()> {
    let size = file.seek(SeekFrom::End(0)).unwrap_or(u64::MAX);
    let put = file.write_all(bytes);
    if put.is_err() {
        let _ = file.set_len(size);
    }
    put?;
    file.seek(SeekFrom::Start(0))?;
    Ok(())
}

// Writes all bytes from the file's first on, and cuts off what stands behind them.
fn overwritten(mut file: File, bytes: &[u8]) -> io::Result<()> {
    file.write_all(bytes)?;
    cut_here(&file)?;
    file.sync_all()
}

// Cuts off what stands behind the place that was written last.
fn cut_here(mut file: &File) -> io::Result<()> {
    let end = file.seek(SeekFrom::Current(0))?;
    file.set_len(end)
}

// Writes the bytes, waits until all of them are on the disk, and closes the file. Nothing is said before it is closed: where standard
// output was closed at the start, this file may have its number.
fn filled(mut file: File, bytes: &[u8]) -> io::Result<()> {
    file.write_all(bytes)?;
    file.sync_all()
}

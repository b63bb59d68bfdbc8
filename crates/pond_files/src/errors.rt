// Why a file could not be read or written, and the plain sentence for it.
// Above it: the commands on files. Below it: how the console speaks, and the system's numbers of errors.
use pond_say::Console;
use std::fmt;
use std::fmt::Write;
use std::io::{Error, ErrorKind};

// The system's numbers of the errors that have a sentence.
const EPERM: i32 = 1;

const ENOENT: i32 = 2;

const EIO: i32 = 5;

const EBADF: i32 = 9;

const EACCES: i32 = 13;

const EEXIST: i32 = 17;

const ENOTDIR: i32 = 20;

const EISDIR: i32 = 21;

const EINVAL: i32 = 22;

const EFBIG: i32 = 27;

const ENOSPC: i32 = 28;

const EROFS: i32 = 30;

const ENAMETOOLONG: i32 = 36;

// The first are the system's; a link, and what is no file, are told apart before anything is written.
#[derive(Clone, Copy, PartialEq, Eq)]
pub enum Failure {
    NoPermission,
    NotThere,
    Closed,
    InTheWay,
    NotAFolder,
    Folder,
    NoName,
    DiskFull,
    TooLarge,
    Device,
    ReadOnly,
    LongName,
    Other(i32),
    Link,
    NoFile,
}

// One that is not of the system is of a name that no file can have, or it stands for a failed device.
impl From<Error> for Failure {
    fn from(error: Error) -> Failure {
        match error.raw_os_error() {
            Some(number) => of_system(number),
            None => match error.kind() {
                ErrorKind::InvalidInput => Failure::NoName,
                _ => Failure::Device,
            },
        }
    }
}

// The system has no error 0.
fn of_system(number: i32) -> Failure {
    match number {
        EPERM | EACCES => Failure::NoPermission,
        ENOENT => Failure::NotThere,
        EBADF => Failure::Closed,
        EEXIST => Failure::InTheWay,
        ENOTDIR => Failure::NotAFolder,
        EISDIR => Failure::Folder,
        EINVAL => Failure::NoName,
        ENOSPC => Failure::DiskFull,
        EFBIG => Failure::TooLarge,
        0 | EIO => Failure::Device,
        EROFS => Failure::ReadOnly,
        ENAMETOOLONG => Failure::LongName,
        other => Failure::Other(other),
    }
}

impl fmt::Display for Failure {
    fn fmt<W: fmt::Write>(&self, f: &mut fmt::Formatter<W>) -> fmt::Result {
        match *self {
            Failure::NoPermission => write!(f, "no permission"),
            Failure::NotThere => write!(f, "no such file or folder"),
            Failure::Closed => write!(f, "it is closed"),
            Failure::InTheWay => write!(
                f,
                "the file with .pond-new behind that name is in the way, left by a run that was cut short; remove it"
            ),
            Failure::NotAFolder => write!(f, "a part of the name is a file and not a folder"),
            Failure::Folder => write!(f, "it is a folder"),
            Failure::NoName => write!(f, "the name holds a byte that no name can hold"),
            Failure::DiskFull => write!(f, "the disk is full"),
            Failure::TooLarge => write!(f, "it would be larger than a file may be"),
            Failure::Device => write!(f, "the disk or the device failed"),
            Failure::ReadOnly => write!(f, "the disk is read-only"),
            Failure::LongName => write!(f, "the name is too long"),
            Failure::Other(number) => write!(f, "error {number}"),
            Failure::Link => write!(f, "it is a link; give the name of the file itself"),
            Failure::NoFile => write!(f, "it is a device or a pipe, and only files are written"),
        }
    }
}

// The last line of a command that failed on a file, as `cannot read NAME: why`.
pub fn cannot(what: &[u8], path: &[u8], why: Failure) {
    let mut out = Console;
    pond_say::text(what);
    pond_say::path(path);
    let _ = writeln!(out, ": {why}");
}

// Messages on standard error, each with the program's name in front.
use crate::program::{ROOM, argument};
use std::io;
use std::io::ErrorKind;

fn tell(rt: HostRuntime, text: &[u8]) {
    let _ = rt.stderr().write_all(text);
}

// The program's name is the last part of the path that it was started by.
fn tell_name(rt: HostRuntime) {
    let mut room = [0u8; ROOM];
    let path = argument(rt, 0, &mut room);
    let name = path.rsplit(|b| *b == b'/').next();
    tell(rt, name.unwrap_or(path));
}

pub fn complain(rt: HostRuntime, text: &[u8]) {
    tell_name(rt);
    tell(rt, b": ");
    tell(rt, text);
}

// The system's numbers for reasons that have no kind of their own: the first two have none, and a kind holds more than the third.
const EIO: i32 = 5;

const EBADF: i32 = 9;

const EACCES: i32 = 13;

// What a descriptor that is not open for a call gives.
pub(crate) fn not_open() -> io::Error {
    io::Error::from_raw_os_error(EBADF)
}

// The system's reasons that a file, a full disk or a closed descriptor can give.
fn reason(error: &io::Error) -> &'static str {
    match error.kind() {
        ErrorKind::NotFound => "there is no such file or folder",
        ErrorKind::NotADirectory => "a part of the path is no folder",
        ErrorKind::IsADirectory => "it is a folder",
        ErrorKind::FileTooLarge => "the file is too large",
        ErrorKind::StorageFull => "no space is left",
        ErrorKind::ReadOnlyFilesystem => "it can only be read",
        ErrorKind::BrokenPipe => "nobody reads it",
        ErrorKind::InvalidFilename => "the name is too long",
        _ => match error.raw_os_error() {
            Some(EIO) => "the device failed",
            Some(EBADF) => "it is not open for this",
            Some(EACCES) => "it is not allowed",
            _ => "the system gave another reason",
        },
    }
}

// The same with a reason.
pub(crate) fn complain_why(rt: HostRuntime, text: &[u8], error: io::Error) {
    complain(rt, text);
    let _ = rt.eprintln(format_args!(": {}", reason(&error)));
}

// Texts and numbers to standard output.
use crate::complain::complain_why;
use std::fmt::Display;
use std::fs::OpenOptions;
use std::io::ErrorKind;
use std::{fs, io};

// Standard output, from when the program begins until a write fails or the program ends; nothing is written to it then. Open is a flag, and no type
// for each state: any write can shut it.
#[derive(Drop)]
pub struct Output {
    pub(crate) rt: HostRuntime,
    pub(crate) open: bool,
}

impl Output {
    pub fn new(rt: HostRuntime) -> Output {
        Output { rt, open: true }
    }

    pub fn rt(&self) -> HostRuntime {
        self.rt
    }

    // Bytes as they are.
    pub fn say(&mut self, text: &[u8]) {
        if self.open {
            let done = self.rt.write_all(text);
            self.settle(done);
        }
    }

    // Whatever has a form of its own: a text, a number, format_args!(..).
    pub fn print<D: Display + Drop>(&mut self, value: D) {
        if self.open {
            let done = self.rt.print(value);
            self.settle(done);
        }
    }

    // After each write. Where it failed, that is said and standard output is shut, so that it is said once.
    fn settle(&mut self, done: io::Result<()>) {
        if let Err(error) = done {
            self.open = false;
            lost(self.rt, error);
        }
    }

    // After the last write: some file systems say only here that they lost what they took.
    pub(crate) fn shut(&mut self) {
        if self.open {
            self.open = false;
            if let Err(error) = handed_on(self.rt) {
                lost(self.rt, error);
            }
        }
    }
}

// Where standard output is a file that can be opened by its name.
fn file(rt: HostRuntime) -> io::Result<fs::File> {
    let name = "/dev/stdout";
    if fs::metadata(&rt, name)?.is_file() {
        OpenOptions::new().append(true).open(&rt, name)
    } else {
        Err(io::Error::from(ErrorKind::Unsupported))
    }
}

// Hands on what a file took to where it is kept: some file systems say only here that they lost it. What is no such file keeps nothing.
pub(crate) fn kept(file: &fs::File) -> io::Result<()> {
    file.sync_all().or_else(|error| match error.kind() {
        ErrorKind::InvalidInput | ErrorKind::Unsupported | ErrorKind::ReadOnlyFilesystem => Ok(()),
        _ => Err(error),
    })
}

// The same of standard output; where it can't be opened anew, nothing is known.
fn handed_on(rt: HostRuntime) -> io::Result<()> {
    match file(rt) {
        Ok(file) => kept(&file),
        Err(_) => Ok(()),
    }
}

pub(crate) fn lost(rt: HostRuntime, error: io::Error) {
    complain_why(rt, b"standard output can't be written", error);
}

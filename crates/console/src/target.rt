// Where a panel's picture goes.
use crate::complain::{complain, complain_why, not_open};
use crate::ppm::write_picture;
use crate::program::{ROOM, argument, has_argument, is_argument};
use crate::rooms::Panel;
use crate::say::{Output, kept};
use std::fs::File;
use std::{io, str};

#[derive(Drop)]
pub(crate) enum Target {
    Nowhere, // nobody asked for a picture
    Output, // behind the lines
    Made(File),
}

impl Target {
    // What argument i names, made once the panel is open and before anything is run, so that a bad argument empties no file: None (and a message) where
    // it can't be written. A dash stands for standard output, where the picture follows the lines.
    pub(crate) fn named(rt: HostRuntime, i: usize) -> Option<Target> {
        if !has_argument(rt, i) {
            Some(Target::Nowhere)
        } else if is_argument(rt, i, b"-") {
            Some(Target::Output)
        } else {
            made(rt, i).map(Target::Made)
        }
    }

    // Some file systems say only at a file's end that they lost what they took.
    pub(crate) fn write(self, out: &Output, panel: Panel, picture: &[u32]) -> io::Result<()> {
        match self {
            Target::Nowhere => Ok(()),
            Target::Output if out.open => { write_picture(&mut out.rt.stdout(), panel, picture) }
            Target::Output => Err(not_open()),
            Target::Made(mut file) => {
                write_picture(&mut file, panel, picture)?;
                kept(&file)
            }
        }
    }
}

fn made(rt: HostRuntime, i: usize) -> Option<File> {
    let mut room = [0u8; ROOM];
    let Ok(name) = str::from_utf8(argument(rt, i, &mut room)) else {
        complain(
            rt,
            b"the picture's file can't be written: its name is not UTF-8\n",
        );
        return None;
    };
    match File::create(&rt, name) {
        Ok(file) => Some(file),
        Err(error) => {
            complain_why(rt, b"the picture's file can't be written", error);
            None
        }
    }
}

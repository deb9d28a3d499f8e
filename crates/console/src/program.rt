// What every program begins and ends with.
ghost use Rattle.std.specs.Prelude.{◌≤◌, length};

use crate::complain::complain;
use crate::say::{Output, lost};
use std::env::FillError;
use std::rt::Env;

// The longest argument that a program takes.
pub(crate) const ROOM: usize = 4096;

fn too_many(rt: HostRuntime, most: usize) -> bool {
    most < usize::MAX && has_argument(rt, most + 1)
}

// Whether standard output can be written: a write of nothing fails where it is closed.
fn takes_output(rt: HostRuntime) -> bool {
    match rt.write_some(b"") {
        Ok(_) => true,
        Err(error) => {
            lost(rt, error);
            false
        }
    }
}

// Whether the program can begin, with at most so many arguments; where it can't, a message says why.
pub fn begin(rt: HostRuntime, most: usize, usage: &[u8]) -> bool {
    if too_many(rt, most) {
        complain(rt, b"too many arguments\n");
        complain(rt, usage);
        return false;
    }
    takes_output(rt)
}

// After the last write.
pub fn end(out: &mut Output) {
    out.shut();
}

// Argument i, in the room: empty where there is none, or where it is longer. No Option: the programs say the same of both.
pub(crate) fn argument<'a>(rt: HostRuntime, i: usize, room: &'a mut [u8; ROOM]) -> &'a [u8]
    ensures { length result.now ≤ 4096 }
{
    let held = rt.arg(i, room).unwrap_or(0);
    &room[..held]
}

// Whether there is an argument i.
pub fn has_argument(rt: HostRuntime, i: usize) -> bool {
    !matches!(rt.arg(i, &mut [0u8; ROOM]), Err(FillError::NotPresent))
}

// Whether argument i is a word.
pub fn is_argument(rt: HostRuntime, i: usize, word: &[u8]) -> bool {
    argument(rt, i, &mut [0u8; ROOM]) == word
}

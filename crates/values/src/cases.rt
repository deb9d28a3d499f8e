// Openings and accesses on lent buffers, each with its line.
ghost use Rattle.std.specs.Prelude.{◌<◌, ◌^◌};

use crate::say::{say_access, say_answer, say_asked, say_opened};
use chip::{Access, State};
use console::machine::Machine;
use console::say::Output;
use model::open::open;

fn opened(
    out: &mut Output,
    width: u32,
    height: u32,
    memory: &mut [u8],
    picture: &mut [u32],
) -> State {
    say_asked(out, width, height, memory.len(), picture.len());
    let answer = open(width, height, memory, picture);
    say_opened(out, &answer);
    answer.state
}

pub(crate) fn open_shown<'a>(
    out: &mut Output,
    width: u32,
    height: u32,
    memory: &'a mut [u8],
    picture: &'a mut [u32],
) -> Machine<'a> {
    let state = opened(out, width, height, memory, picture);
    Machine {
        state,
        memory,
        picture,
    }
}

// An opening with so many zero bytes and words of picture. The bounds stand in the contract: a const parameter has no invariant. No machine is made: so
// memory that nobody reads takes no room on the stack.
pub(crate) fn open_on<const BYTES: usize, const WORDS: usize>(
    out: &mut Output,
    width: u32,
    height: u32,
)
    requires bytes_bound { BYTES < 2 ^ 32 }
    requires words_bound { WORDS < 2 ^ 32 }
{
    let mut memory = [0u8; BYTES];
    let mut picture = [0u32; WORDS];
    opened(out, width, height, &mut memory, &mut picture);
}

pub(crate) fn ask(out: &mut Output, machine: &mut Machine, a: Access) {
    say_access(out, a);
    let told = machine.ask(a);
    say_answer(out, told);
}

pub(crate) fn ask_all(out: &mut Output, machine: &mut Machine, accesses: &[Access]) {
    for a in accesses {
        ask(out, machine, *a);
    }
}

// Accesses one after the other, from a fresh opening of 4 by 1 with 16 zero bytes ..
pub(crate) fn in_turn(out: &mut Output, accesses: &[Access]) {
    let mut memory = [0u8; 16];
    let mut picture = [0u32; 4];
    let opened = open(4, 1, &mut memory, &mut picture);
    let mut machine = Machine {
        state: opened.state,
        memory: &mut memory,
        picture: &mut picture,
    };
    ask_all(out, &mut machine, accesses);
}

// .. and each from one of its own.
pub(crate) fn apart(out: &mut Output, accesses: &[Access]) {
    for a in accesses {
        in_turn(out, &[*a]);
    }
}

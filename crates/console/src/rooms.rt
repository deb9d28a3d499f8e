// A panel in rooms of this program's own.
ghost use Rattle.std.specs.Prelude.{◌≤◌};

use crate::complain::{complain, complain_why};
use crate::machine::Machine;
use crate::say::Output;
use crate::session::{Form, Session};
use crate::target::Target;
use chip::Refusal;
use model::open::open;
use text::Size;

// Memory and picture are on the stack, which commonly holds 8 MiB: 2 MiB of memory and the largest picture fit. Arrays
// and no Vec: what is larger is refused in these programs' words.
const MEMORY: usize = 2097152;

const PICTURE: usize = 1048576;

const SIDE: u32 = 1024;

// A panel that fits the rooms.
#[derive(Clone, Copy)]
pub(crate) struct Panel {
    pub(crate) width: u32,
    pub(crate) height: u32,
    bytes: u32,
    ghost narrow: { width ≤ 1024 },
    ghost low: { height ≤ 1024 },
    ghost small: { bytes ≤ 2097152 },
}

impl Panel {
    // Err says why it does not fit.
    pub(crate) fn new(size: Size, bytes: u32) -> Result<Panel, &'static [u8]> {
        let Size { width, height } = size;
        if SIDE < width {
            return Err(b"the panel is too wide: expected are 1 to 1024 dots\n");
        }
        if SIDE < height {
            return Err(b"the panel is too high: expected are 1 to 1024 dots\n");
        }
        if MEMORY < bytes as usize {
            return Err(
                b"so much memory does not fit on this program's stack: expected are at most 2097152 bytes\n",
            );
        }
        Ok(Panel {
            width,
            height,
            bytes,
        })
    }

    pub(crate) fn show(self, out: &mut Output, form: Form) {
        let mut memory = [0u8; MEMORY];
        let mut picture = [0u32; PICTURE];
        self.cut(out, form, &mut memory, &mut picture);
    }

    // The parts of the rooms that the panel asks for.
    fn cut(
        self,
        out: &mut Output,
        form: Form,
        memory: &mut [u8; MEMORY],
        picture: &mut [u32; PICTURE],
    ) {
        let fitted = self.bytes as usize;
        let dots = (self.width * self.height) as usize;
        self.run(out, form, &mut memory[..fitted], &mut picture[..dots]);
    }

    // Opens the panel, runs standard input, and writes the picture.
    fn run(self, out: &mut Output, form: Form, memory: &mut [u8], picture: &mut [u32]) {
        let opened = open(self.width, self.height, memory, picture);
        if let Ok(why) = Refusal::try_from(opened.status) {
            complain(out.rt, refused(why));
            return;
        }
        let Some(to) = Target::named(out.rt, 3) else {
            return;
        };
        out.print(format_args!("PERMEDIA2 {}x{} {}\n", self.width, self.height, self.bytes));
        let mut machine = Machine {
            state: opened.state,
            memory,
            picture,
        };
        Session { out, form }.run(&mut machine);
        if let Err(error) = to.write(out, self, machine.picture) {
            complain_why(out.rt, b"the picture could not be written whole", error);
        }
    }
}

// Why a panel that fits the rooms is not opened.
fn refused(why: Refusal) -> &'static [u8] {
    match why {
        Refusal::Panel => {
            b"the opening is refused as 8: expected are panels of 1x1 to 1024x1024\n"
        }
        _ => b"the opening is refused as 9: expected are 8 to 2097152 bytes, a multiple of 8\n",
    }
}

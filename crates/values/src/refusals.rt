// Each refusal, 1 to 9.
ghost use Rattle.std.specs.Prelude.{◌<◌, ◌^◌};

use crate::cases::{apart, ask, in_turn, open_on, open_shown};
use chip::Access;
use console::machine::Machine;
use console::say::Output;

// 1: the state that a refused opening gives is no state.
fn not_a_state(out: &mut Output) {
    let mut memory = [0u8; 16];
    let mut picture = [0u32; 4];
    let mut machine = open_shown(out, 0, 1, &mut memory, &mut picture);
    ask(out, &mut machine, Access::read(0, 0x1080, 15));
}

// 2 at an access: memory or picture is not as long as at the opening.
fn other_lengths<const BYTES: usize, const WORDS: usize>(out: &mut Output)
    requires bytes_bound { BYTES < 2 ^ 32 }
    requires words_bound { WORDS < 2 ^ 32 }
{
    let mut memory = [0u8; 16];
    let mut picture = [0u32; 4];
    let mut other_memory = [0u8; BYTES];
    let mut other_picture = [0u32; WORDS];
    let opened = open_shown(out, 4, 1, &mut memory, &mut picture);
    let mut machine = Machine {
        memory: &mut other_memory,
        picture: &mut other_picture,
        ..opened
    };
    ask(out, &mut machine, Access::read(0, 0x1080, 15));
}

// 5: no register, no memory, an unknown address, an index where nothing exists, past the header.
fn absent(out: &mut Output) {
    apart(
        out,
        &[
            Access::read(0, 0, 15),
            Access::read(1, 16, 15),
            Access::read(0, 0x4008, 15),
        ],
    );
    in_turn(
        out,
        &[Access::write(0, 0x4000, 15, 0), Access::read(0, 0x4050, 15)],
    );
    apart(out, &[Access::read(3, 0x100, 15)]);
}

// 6: a write to FramebufferWriteMask, and a read of RDPixelClockA1, index 20h.
fn no_direction(out: &mut Output) {
    apart(out, &[Access::write(0, 0x1140, 15, 0)]);
    in_turn(
        out,
        &[
            Access::write(0, 0x4000, 15, 0x20),
            Access::read(0, 0x4050, 15),
        ],
    );
}

// 7: swap code 3, packed 16-bit mode, SVGA access and ROM access.
fn modes(out: &mut Output) {
    let cases = [
        (Access::write(0, 0x50, 15, 3), Access::read(1, 0, 15)),
        (Access::write(0, 0x50, 15, 8), Access::read(1, 0, 15)),
        (
            Access::write(0, 0x58, 15, 0x100),
            Access::write(2, 0, 15, 1),
        ),
        (Access::write(0, 0x58, 15, 0x200), Access::read(2, 0, 15)),
    ];
    for (mode, access) in cases {
        in_turn(out, &[mode, access]);
    }
}

fn on_access(out: &mut Output) {
    out.print("refusal 1\n");
    not_a_state(out);
    out.print("refusal 2\n");
    // At an opening: a picture of three words for four dots.
    open_on::<16, 3>(out, 4, 1);
    other_lengths::<8, 4>(out);
    other_lengths::<16, 5>(out);
    out.print("refusal 3\n");
    apart(out, &[Access::read(4, 0, 15), Access::read(0, 0x1080, 16)]);
    out.print("refusal 4\n");
    apart(out, &[Access::read(0, 0x1002, 15)]);
}

pub(crate) fn all(out: &mut Output) {
    on_access(out);
    out.print("refusal 5\n");
    absent(out);
    out.print("refusal 6\n");
    no_direction(out);
    out.print("refusal 7\n");
    modes(out);
    out.print("refusal 8\n");
    open_on::<16, 4>(out, 4, 0);
    out.print("refusal 9\n");
    open_on::<12, 4>(out, 4, 1);
}

// A look gives the read's answer, and the next access finds all as it was (02, C-12).
use crate::cases::{apart, ask, ask_all, in_turn, open_shown};
use chip::Access;
use console::say::Output;

fn at_palette_data(out: &mut Output) {
    let mut memory = [0u8; 16];
    let mut picture = [0u32; 4];
    let mut machine = open_shown(out, 4, 1, &mut memory, &mut picture);
    let watch = Access::look(0, 0x4008, 1);
    // Red 1 and green 2 of entry 7, with a look after each. Blue 4 completes it, and the address is set back to it.
    ask_all(
        out,
        &mut machine,
        &[
            Access::write(0, 0x4000, 1, 7),
            Access::write(0, 0x4008, 1, 1),
            watch,
            Access::write(0, 0x4008, 1, 2),
            watch,
            Access::write(0, 0x4008, 1, 4),
            Access::write(0, 0x4018, 1, 7),
        ],
    );
    // Each component is looked at twice, and read. After blue the address is the next entry's.
    for _ in 0..3 {
        ask_all(
            out,
            &mut machine,
            &[watch, watch, Access::read(0, 0x4008, 1)],
        );
    }
    ask(out, &mut machine, Access::look(0, 0x4018, 1));
}

// Refused as the read.
fn refused(out: &mut Output) {
    apart(
        out,
        &[
            Access::look(4, 0, 15),
            Access::look(0, 0x1080, 16),
            Access::look(0, 0x1082, 15),
            Access::look(0, 0x4008, 1),
        ],
    );
    in_turn(
        out,
        &[
            Access::write(0, 0x4000, 1, 0x20),
            Access::look(0, 0x4050, 1),
        ],
    );
    in_turn(
        out,
        &[Access::write(0, 0x50, 15, 3), Access::look(1, 0, 15)],
    );
}

pub(crate) fn all(out: &mut Output) {
    out.print("looks\n");
    apart(
        out,
        &[Access::look(0, 0x1080, 15), Access::look(0, 0x3000, 15)],
    );
    in_turn(
        out,
        &[Access::write(1, 12, 15, 0x11223344), Access::look(2, 12, 5)],
    );
    at_palette_data(out);
    refused(out);
}

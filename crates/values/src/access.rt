// Offsets and enables at an aperture, and six-bit red.
use crate::cases::{apart, ask_all, in_turn, open_shown};
use chip::Access;
use console::machine::Machine;
use console::say::Output;

// The last word that is fitted is served, the next is refused as 5, and an offset inside a word as 4.
pub(crate) fn offsets(out: &mut Output) {
    out.print("offsets with 16 bytes fitted\n");
    let last = Access::read(1, 12, 15);
    apart(out, &[last]);
    in_turn(out, &[Access::write(1, 12, 15, 0x11223344), last]);
    apart(
        out,
        &[
            Access::read(1, 16, 15),
            Access::write(1, 16, 15, 0x11223344),
            Access::read(1, 14, 15),
            Access::write(1, 14, 15, 0x11223344),
            Access::read(2, 12, 15),
            Access::read(2, 16, 15),
            Access::read(2, 14, 15),
        ],
    );
}

// Enables of 15 are served and 16 is refused as 3.
pub(crate) fn enables(out: &mut Output) {
    out.print("enables\n");
    apart(
        out,
        &[
            Access::read(0, 0x1080, 15),
            Access::read(0, 0x1080, 16),
            Access::write(0, 0x1080, 15, 0),
            Access::write(0, 0x1080, 16, 0),
            Access::read(1, 0, 15),
            Access::read(1, 0, 16),
        ],
    );
}

fn say_red(out: &mut Output, machine: &Machine) {
    let red = machine.state.palette[7] / 0x10000 % 256;
    out.print(format_args!("stored red of entry 7: {red}\n"));
}

// Red 63 is written in six bits and read back as 63; in eight bits the stored byte is read as it is, 255.
pub(crate) fn six_bit_red(out: &mut Output) {
    out.print("six-bit red\n");
    let mut memory = [0u8; 16];
    let mut picture = [0u32; 4];
    let mut machine = open_shown(out, 4, 1, &mut memory, &mut picture);
    // Entry 7: red 63, green 0 and blue 0 are written.
    ask_all(
        out,
        &mut machine,
        &[
            Access::write(0, 0x4000, 1, 7),
            Access::write(0, 0x4008, 1, 63),
            Access::write(0, 0x4008, 1, 0),
            Access::write(0, 0x4008, 1, 0),
        ],
    );
    say_red(out, &machine);
    let read_back = [Access::write(0, 0x4018, 1, 7), Access::read(0, 0x4008, 1)];
    ask_all(out, &mut machine, &read_back);
    // Eight bits: RDMiscControl, index 1Eh, bit 1.
    ask_all(
        out,
        &mut machine,
        &[
            Access::write(0, 0x4000, 1, 0x1E),
            Access::write(0, 0x4050, 1, 2),
        ],
    );
    ask_all(out, &mut machine, &read_back);
}

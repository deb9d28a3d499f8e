// The model for C, second edition: the functions that include/reefstencil.h declares, with the contracts of what they call. A state's parts are lent one by one;
// the header's inline functions take them from a struct. Each array is a plain pointer to its first element, with no length; a slice is a pointer and then its
// length. Every number and every bit pattern that C hands in has a meaning. That its pointers are good, and that no two parts overlap, is C's part
// (docs/TRUST.md).
#![tactic(auto)]

ghost use Rattle.std.specs.Prelude.{◌≡◌};
ghost use Rattle.chip.specs.Access.{reads, writes, looks};
ghost use Rattle.chip.specs.Parts.{state_of, replied, wrote, opened};
ghost use Rattle.chip.specs.Step.{open_of, Opens, step_of, Gives};

use chip::{DAC_BYTES, ROWS, Reply, Wrote};

// The edition. It is also in the functions' names, so that a header of another edition does not link.
#[unsafe(no_mangle)]
pub extern "C" fn pm_abi() -> u32
    ensures { result ≡ 2 }
{
    2
}

// The bytes of the header's struct pm_state.
#[unsafe(no_mangle)]
pub extern "C" fn pm_state_size() -> u32
    ensures { result ≡ 1680 }
{
    1680
}

#[unsafe(no_mangle)]
pub extern "C" fn pm_open_v2(
    width: &mut u32,
    height: &mut u32,
    fitted: &mut u32,
    once: &mut u32,
    values: &mut [u32; ROWS],
    knowns: &mut [u32; ROWS],
    palette: &mut [u32; 256],
    dac: &mut [u8; DAC_BYTES],
    wide: u32,
    high: u32,
    memory: &mut [u8],
    picture: &mut [u32],
) -> u32
    ensures { Opens (open_of wide high memory.old picture.old)
        (opened (state_of width.new height.new fitted.new once.new values.new knowns.new palette.new dac.new) result) memory.new picture.new }
{
    model::lent::open(
        width, height, fitted, once, values, knowns, palette, dac, wide, high, memory, picture,
    )
}

// One function for each name that C calls, though a read and a look are alike.
#[unsafe(no_mangle)]
pub extern "C" fn pm_read_v2(
    width: u32,
    height: u32,
    fitted: u32,
    once: u32,
    values: &mut [u32; ROWS],
    knowns: &[u32; ROWS],
    palette: &[u32; 256],
    dac: &mut [u8; DAC_BYTES],
    target: u32,
    offset: u32,
    enables: u32,
    memory: &[u8],
    picture: &[u32],
) -> Reply
    ensures { Gives (step_of (state_of width height fitted once values.old knowns.now palette.now dac.old) memory.now picture.now (reads target offset enables))
        (replied (state_of width height fitted once values.new knowns.now palette.now dac.new) result) memory.now picture.now }
{
    model::lent::read(
        width, height, fitted, once, values, knowns, palette, dac, target, offset, enables, memory,
        picture,
    )
}

#[unsafe(no_mangle)]
pub extern "C" fn pm_write_v2(
    width: u32,
    height: u32,
    fitted: u32,
    once: &mut u32,
    values: &mut [u32; ROWS],
    knowns: &mut [u32; ROWS],
    palette: &mut [u32; 256],
    dac: &mut [u8; DAC_BYTES],
    target: u32,
    offset: u32,
    enables: u32,
    word: u32,
    memory: &mut [u8],
    picture: &mut [u32],
) -> Wrote
    ensures { Gives (step_of (state_of width height fitted once.old values.old knowns.old palette.old dac.old) memory.old picture.old (writes target offset enables word))
        (wrote (state_of width height fitted once.new values.new knowns.new palette.new dac.new) result) memory.new picture.new }
{
    model::lent::write(
        width, height, fitted, once, values, knowns, palette, dac, target, offset, enables, word,
        memory, picture,
    )
}

#[unsafe(no_mangle)]
pub extern "C" fn pm_look_v2(
    width: u32,
    height: u32,
    fitted: u32,
    once: u32,
    values: &[u32; ROWS],
    knowns: &[u32; ROWS],
    palette: &[u32; 256],
    dac: &[u8; DAC_BYTES],
    target: u32,
    offset: u32,
    enables: u32,
    memory: &[u8],
    picture: &[u32],
) -> Reply
    ensures { Gives (step_of (state_of width height fitted once values.now knowns.now palette.now dac.now) memory.now picture.now (looks target offset enables))
        (replied (state_of width height fitted once values.now knowns.now palette.now dac.now) result) memory.now picture.now }
{
    model::lent::look(
        width, height, fitted, once, values, knowns, palette, dac, target, offset, enables, memory,
        picture,
    )
}

// An opening, a read, a write and a look in place. A refused read, write or look alters no part; a refused opening leaves the 0 by 0 state in all parts, and
// memory and picture as they were.
ghost use Rattle.chip.specs.Access.{reads, writes, looks};
ghost use Rattle.chip.specs.Parts.{state_of, replied, wrote, opened};
ghost use Rattle.chip.specs.Step.{step_of, open_of, Gives, Opens};

use crate::opening::{blank, check_opening, reset_parts};
use crate::sound::is_state;
use crate::sure::{not_written, refused, sure_look, sure_read, sure_write};
use chip::{DAC_BYTES, ROWS, Refusal, Reply, Wrote};
use palette::dac::dac_of;

#[tactic(auto, using(crate::proofs::DoneLaws::step_none, chip::proofs::Sure::surely_step_lem))]
pub fn read<'a>(
    width: u32,
    height: u32,
    fitted: u32,
    once: u32,
    values: &mut [u32; ROWS],
    knowns: &'a [u32; ROWS],
    palette: &'a [u32; 256],
    dac: &mut [u8; DAC_BYTES],
    target: u32,
    offset: u32,
    enables: u32,
    memory: &'a [u8],
    picture: &'a [u32],
) -> Reply
    ensures { Gives (step_of (state_of width height fitted once values.old knowns.now palette.now dac.old) memory.now picture.now (reads target offset enables))
        (replied (state_of width height fitted once values.new knowns.now palette.now dac.new) result) memory.now picture.now }
{
    if !is_state(
        width,
        height,
        fitted,
        once,
        values,
        knowns,
        palette,
        dac_of(dac),
    ) {
        return refused(Refusal::NotState);
    }
    sure_read(
        width, height, fitted, once, values, knowns, palette, dac, target, offset, enables, memory,
        picture,
    )
}

#[tactic(auto, using(crate::proofs::DoneLaws::step_none, chip::proofs::Sure::surely_step_lem))]
pub fn write(
    width: u32,
    height: u32,
    fitted: u32,
    once: &mut u32,
    values: &mut [u32; ROWS],
    knowns: &mut [u32; ROWS],
    palette: &mut [u32; 256],
    dac: &mut [u8; DAC_BYTES],
    target: u32,
    offset: u32,
    enables: u32,
    word: u32,
    memory: &mut [u8],
    picture: &mut [u32],
) -> Wrote
    ensures { Gives (step_of (state_of width height fitted once.old values.old knowns.old palette.old dac.old) memory.old picture.old (writes target offset enables word))
        (wrote (state_of width height fitted once.new values.new knowns.new palette.new dac.new) result) memory.new picture.new }
{
    let o = *once;
    if !is_state(
        width,
        height,
        fitted,
        o,
        values,
        knowns,
        palette,
        dac_of(dac),
    ) {
        return not_written(Refusal::NotState);
    }
    sure_write(
        width, height, fitted, once, values, knowns, palette, dac, target, offset, enables, word,
        memory, picture,
    )
}

#[tactic(auto, using(crate::proofs::DoneLaws::step_none, chip::proofs::Sure::surely_step_lem))]
pub fn look<'a>(
    width: u32,
    height: u32,
    fitted: u32,
    once: u32,
    values: &'a [u32; ROWS],
    knowns: &'a [u32; ROWS],
    palette: &'a [u32; 256],
    dac: &'a [u8; DAC_BYTES],
    target: u32,
    offset: u32,
    enables: u32,
    memory: &'a [u8],
    picture: &'a [u32],
) -> Reply
    ensures { Gives (step_of (state_of width height fitted once values.now knowns.now palette.now dac.now) memory.now picture.now (looks target offset enables))
        (replied (state_of width height fitted once values.now knowns.now palette.now dac.now) result) memory.now picture.now }
{
    let d = dac_of(dac);
    if !is_state(width, height, fitted, once, values, knowns, palette, d) {
        return refused(Refusal::NotState);
    }
    sure_look(
        width, height, fitted, once, values, knowns, palette, d, target, offset, enables, memory,
        picture,
    )
}

#[tactic(auto, using(crate::proofs::OpenLaws::opens_small, crate::proofs::OpenLaws::opens_refused, crate::proofs::OpenLaws::opens_done, crate::proofs::DoneLaws::refusal_counts))]
pub fn open(
    width: &mut u32,
    height: &mut u32,
    fitted: &mut u32,
    once: &mut u32,
    values: &mut [u32; ROWS],
    knowns: &mut [u32; ROWS],
    palette: &mut [u32; 256],
    dac: &mut [u8; DAC_BYTES],
    wide: u32,
    high: u32,
    memory: &mut [u8],
    picture: &mut [u32],
) -> u32
    ensures { Opens (open_of wide high memory.old picture.old)
        (opened (state_of width.new height.new fitted.new once.new values.new knowns.new palette.new dac.new) result) memory.new picture.new }
{
    let test = check_opening(wide, high, memory.len() as u64, picture.len() as u64);
    if let Err(why) = test {
        reset_parts(
            width, height, fitted, once, values, knowns, palette, dac, 0, 0, 0,
        );
        return u32::from(why);
    }
    let size = memory.len() as u32;
    reset_parts(
        width, height, fitted, once, values, knowns, palette, dac, wide, high, size,
    );
    blank(picture);
    0
}

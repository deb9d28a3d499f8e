// A read and a write in place for a state that is known to be one: refusal 1 is not tested. Both are total, and say what they do with any parts; where the
// panel is outside the limits, which no state's is, nothing is drawn.
ghost use Rattle.chip.specs.Access.{reads, writes, looks};
ghost use Rattle.std.specs.Prelude.{◌≡◌};
ghost use Rattle.chip.specs.Parts.{made, state_of, replied, wrote};
ghost use Rattle.chip.specs.Status.{number_of};
ghost use Rattle.chip.specs.Step.{surely_of, Gives};

use crate::seen::{reply_of, seen_at};
use crate::status::check_access;
use crate::written::{fetch_at, write_at};
use chip::{Access, DAC_BYTES, Dac, ROWS, Refusal, Reply, Wrote};
use palette::dac::dac_of;
use registers::place::place_of;

// What a refused read or look replies, and what a refused write answers. Functions and no From in chip: the model alone answers so.
pub(crate) fn refused(why: Refusal) -> Reply
    ensures { result ≡ record { status = number_of why; word = 0; known = 0 } }
{
    Reply {
        status: u32::from(why),
        word: 0,
        known: 0,
    }
}

pub(crate) fn not_written(why: Refusal) -> Wrote
    ensures { result ≡ record { status = number_of why; changed = 0 } }
{
    Wrote {
        status: u32::from(why),
        changed: 0,
    }
}

// The values are lent to be altered, although no read of today alters them: a read of the cursor's memory will (02, C-16).
#[tactic(auto, using(crate::proofs::DoneLaws::refusal_counts, crate::proofs::DoneLaws::surely_refused, crate::proofs::DoneLaws::surely_read))]
pub fn sure_read<'a>(
    width: u32,
    height: u32,
    fitted: u32,
    once: u32,
    values: &mut [u32; ROWS],
    knowns: &'a [u32; ROWS],
    palette: &'a [u32; 256],
    dac: &mut [u8; DAC_BYTES],
    target: u32,
    offset: u32,
    enables: u32,
    memory: &'a [u8],
    picture: &'a [u32],
) -> Reply
    ensures { Gives (surely_of (state_of width height fitted once values.old knowns.now palette.now dac.old) memory.now picture.now (reads target offset enables))
        (replied (state_of width height fitted once values.new knowns.now palette.now dac.new) result) memory.now picture.now }
{
    let a = Access::read(target, offset, enables);
    let d = dac_of(dac);
    let p = place_of(d, target, offset);
    let test = check_access(
        width,
        height,
        fitted,
        values,
        memory.len() as u64,
        picture.len() as u64,
        a,
        p,
    );
    if let Err(why) = test {
        return refused(why);
    }
    let x = seen_at(values, knowns, palette, d, a, p, memory);
    fetch_at(dac, a, p);
    reply_of(x, enables)
}

// A look, for the same: it is lent nothing that it could alter.
#[tactic(auto, using(crate::proofs::DoneLaws::refusal_counts, crate::proofs::DoneLaws::surely_refused, crate::proofs::DoneLaws::surely_look))]
pub(crate) fn sure_look(
    width: u32,
    height: u32,
    fitted: u32,
    once: u32,
    values: &[u32; ROWS],
    knowns: &[u32; ROWS],
    palette: &[u32; 256],
    d: Dac,
    target: u32,
    offset: u32,
    enables: u32,
    memory: &[u8],
    picture: &[u32],
) -> Reply
    ensures { Gives (surely_of (made width height fitted once values.now knowns.now palette.now d) memory.now picture.now (looks target offset enables))
        (replied (made width height fitted once values.now knowns.now palette.now d) result) memory.now picture.now }
{
    let a = Access::look(target, offset, enables);
    let p = place_of(d, target, offset);
    let test = check_access(
        width,
        height,
        fitted,
        values,
        memory.len() as u64,
        picture.len() as u64,
        a,
        p,
    );
    if let Err(why) = test {
        return refused(why);
    }
    let x = seen_at(values, knowns, palette, d, a, p, memory);
    reply_of(x, enables)
}

#[tactic(auto, using(crate::proofs::DoneLaws::refusal_counts, crate::proofs::DoneLaws::surely_refused, crate::proofs::DoneLaws::surely_write))]
pub fn sure_write(
    width: u32,
    height: u32,
    fitted: u32,
    once: &mut u32,
    values: &mut [u32; ROWS],
    knowns: &mut [u32; ROWS],
    palette: &mut [u32; 256],
    dac: &mut [u8; DAC_BYTES],
    target: u32,
    offset: u32,
    enables: u32,
    word: u32,
    memory: &mut [u8],
    picture: &mut [u32],
) -> Wrote
    ensures { Gives (surely_of (state_of width height fitted once.old values.old knowns.old palette.old dac.old) memory.old picture.old (writes target offset enables word))
        (wrote (state_of width height fitted once.new values.new knowns.new palette.new dac.new) result) memory.new picture.new }
{
    let a = Access::write(target, offset, enables, word);
    let d = dac_of(dac);
    let p = place_of(d, target, offset);
    let test = check_access(
        width,
        height,
        fitted,
        values,
        memory.len() as u64,
        picture.len() as u64,
        a,
        p,
    );
    if let Err(why) = test {
        return not_written(why);
    }
    let changed = write_at(
        width, height, once, values, knowns, palette, dac, a, p, memory, picture,
    );
    Wrote { status: 0, changed }
}

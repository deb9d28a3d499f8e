// A look by value.
ghost use Rattle.chip.specs.Access.{looks};
ghost use Rattle.chip.specs.Parts.{replied};
ghost use Rattle.chip.specs.Step.{step_of, Gives};

use chip::{Reply, State};
use palette::dac::dac_bytes;

pub fn look<'a>(
    s: State,
    target: u32,
    offset: u32,
    enables: u32,
    memory: &'a [u8],
    picture: &'a [u32],
) -> Reply
    ensures { Gives (step_of s memory.now picture.now (looks target offset enables)) (replied s result) memory.now picture.now }
{
    crate::lent::look(
        s.width,
        s.height,
        s.fitted,
        s.once,
        &s.values,
        &s.knowns,
        &s.palette,
        &dac_bytes(s.dac),
        target,
        offset,
        enables,
        memory,
        picture,
    )
}

// A write by value: the state is taken apart, written in place, and put together.
ghost use Rattle.chip.specs.Access.{writes};
ghost use Rattle.chip.specs.Step.{step_of, Gives};

use chip::{Answer, State};
use palette::dac::{dac_bytes, dac_of};

pub fn write(
    s: State,
    target: u32,
    offset: u32,
    enables: u32,
    word: u32,
    memory: &mut [u8],
    picture: &mut [u32],
) -> Answer
    ensures { Gives (step_of s memory.old picture.old (writes target offset enables word)) result memory.new picture.new }
{
    let mut once = s.once;
    let mut values = s.values;
    let mut knowns = s.knowns;
    let mut palette = s.palette;
    let mut dac = dac_bytes(s.dac);
    let r = crate::lent::write(
        s.width,
        s.height,
        s.fitted,
        &mut once,
        &mut values,
        &mut knowns,
        &mut palette,
        &mut dac,
        target,
        offset,
        enables,
        word,
        memory,
        picture,
    );
    let n = State {
        once,
        values,
        knowns,
        palette,
        dac: dac_of(&dac),
        ..s
    };
    Answer {
        status: r.status,
        word: 0,
        known: 0,
        changed: r.changed,
        state: n,
    }
}

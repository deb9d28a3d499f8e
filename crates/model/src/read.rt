// A read by value: the state is taken apart, read in place, and put together.
ghost use Rattle.chip.specs.Access.{reads};
ghost use Rattle.chip.specs.Step.{step_of, Gives};

use chip::{Answer, State};
use palette::dac::{dac_bytes, dac_of};

pub fn read<'a>(
    s: State,
    target: u32,
    offset: u32,
    enables: u32,
    memory: &'a [u8],
    picture: &'a [u32],
) -> Answer
    ensures { Gives (step_of s memory.now picture.now (reads target offset enables)) result memory.now picture.now }
{
    let mut values = s.values;
    let mut dac = dac_bytes(s.dac);
    let r = crate::lent::read(
        s.width,
        s.height,
        s.fitted,
        s.once,
        &mut values,
        &s.knowns,
        &s.palette,
        &mut dac,
        target,
        offset,
        enables,
        memory,
        picture,
    );
    let n = State {
        values,
        dac: dac_of(&dac),
        ..s
    };
    Answer {
        status: r.status,
        word: r.word,
        known: r.known,
        changed: 0,
        state: n,
    }
}

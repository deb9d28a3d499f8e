// An opening by value: the parts are made anew, and put together.
ghost use Rattle.chip.specs.Step.{open_of, Opens};

use chip::{DAC_BYTES, Opened, ROWS, State};
use palette::dac::dac_of;

pub fn open(width: u32, height: u32, memory: &mut [u8], picture: &mut [u32]) -> Opened
    ensures { Opens (open_of width height memory.old picture.old) result memory.new picture.new }
{
    let mut w: u32 = 0;
    let mut h: u32 = 0;
    let mut fitted: u32 = 0;
    let mut once: u32 = 0;
    let mut values = [0u32; ROWS];
    let mut knowns = [0u32; ROWS];
    let mut palette = [0u32; 256];
    let mut dac = [0u8; DAC_BYTES];
    let status = crate::lent::open(
        &mut w,
        &mut h,
        &mut fitted,
        &mut once,
        &mut values,
        &mut knowns,
        &mut palette,
        &mut dac,
        width,
        height,
        memory,
        picture,
    );
    let n = State {
        width: w,
        height: h,
        fitted,
        once,
        values,
        knowns,
        palette,
        dac: dac_of(&dac),
    };
    Opened { status, state: n }
}

// An opening in place: its refusals, the parts at reset, and the picture filled.
ghost use Rattle.std.specs.Prelude.{◌≡◌, length, replicate};
ghost use Rattle.chip.specs.Parts.{state_of};
ghost use Rattle.chip.specs.State.{reset_state};
ghost use Rattle.chip.specs.Refusal.{opening_status};
ghost use Rattle.chip.specs.Status.{status_given};
ghost use Rattle.chip.specs.Step.{blank_word};

use chip::{DAC_BYTES, ROWS, Refusal};

// The refusals of an opening, in the order 8, 9, 2.
#[tactic(auto, using(crate::proofs::OpenLaws::line_eight, crate::proofs::OpenLaws::line_nine, crate::proofs::OpenLaws::line_size, crate::proofs::OpenLaws::line_none))]
pub(crate) fn check_opening(
    width: u32,
    height: u32,
    memory: u64,
    picture: u64,
) -> Result<(), Refusal>
    ensures { status_given result ≡ opening_status width height memory picture }
{
    if !picture::redraw::panel_fits(width, height) {
        return Err(Refusal::Panel);
    }
    if !crate::sound::memory_ok(memory) {
        return Err(Refusal::Memory);
    }
    if picture != u64::from(width) * u64::from(height) {
        return Err(Refusal::Length);
    }
    Ok(())
}

// Every part takes its reset value.
#[tactic(auto, unfolding(chip::specs::State::reset_state))]
pub(crate) fn reset_parts(
    width: &mut u32,
    height: &mut u32,
    fitted: &mut u32,
    once: &mut u32,
    values: &mut [u32; ROWS],
    knowns: &mut [u32; ROWS],
    palette: &mut [u32; 256],
    dac: &mut [u8; DAC_BYTES],
    wide: u32,
    high: u32,
    memory: u32,
)
    ensures { state_of width.new height.new fitted.new once.new values.new knowns.new palette.new dac.new
        ≡ reset_state wide high memory }
{
    *width = wide;
    *height = high;
    *fitted = memory;
    *once = 0;
    registers::bank::reset_bank(values, knowns);
    palette::entries::reset_palette(palette);
    palette::dac::put_dac(dac, palette::dac::reset_dac());
}

pub(crate) fn blank(picture: &mut [u32])
    ensures { picture.new ≡ replicate (length picture.old) blank_word }
{
    picture.fill(0x03000000);
}

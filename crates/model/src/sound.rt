// What makes a state a state: refusal 1. The tables are gathered in straight loops, and none of the four groups of tests waits for another, since nearly every
// state passes all.
ghost use Rattle.std.specs.Prelude.{◌≡◌};
ghost use Rattle.chip.specs.Parts.{made};
ghost use Rattle.chip.specs.Sound.{memory_ok, is_state};
ghost use Rattle.model.specs.Parts.{sizes_ok};

use chip::{Dac, ROWS};

#[tactic(auto, unfolding(chip::specs::Sound::memory_ok))]
pub(crate) fn memory_ok(fitted: u64) -> bool
    ensures { result ≡ memory_ok fitted }
{
    fitted % 8 == 0 && (8..=8388608).contains(&fitted)
}

#[tactic(auto, unfolding(crate::specs::Parts::sizes_ok, chip::specs::Sound::once_ok))]
fn sizes_ok(width: u32, height: u32, fitted: u32, once: u32) -> bool
    ensures { result ≡ sizes_ok width height fitted once }
{
    picture::redraw::panel_fits(width, height) && memory_ok(u64::from(fitted)) && once <= 3
}

#[tactic(auto, using(crate::proofs::TestLaws::all_tests))]
pub fn is_state(
    width: u32,
    height: u32,
    fitted: u32,
    once: u32,
    values: &[u32; ROWS],
    knowns: &[u32; ROWS],
    palette: &[u32; 256],
    d: Dac,
) -> bool
    ensures { result ≡ is_state (made width height fitted once values.now knowns.now palette.now d) }
{
    sizes_ok(width, height, fitted, once)
        & palette::dac::dac_sound(d)
        & registers::bank::bank_sound(once, values, knowns)
        & palette::entries::palette_sound(palette)
}

// A write through an aperture: each enabled lane's byte, and the dots that show it. View, palette, memory and picture come apart, as poke takes them.
ghost use Rattle.model.specs.Lanes.{LaneIn, WindowIn};

use chip::Access;
use picture::view::View;

// Lane j, where it is enabled: its byte, and the dots that show it.
#[tactic(auto, using(crate::proofs::PlaceLaws::none_changed, crate::proofs::PlaceLaws::same_drawn), unfolding(crate::specs::Lanes::lane_in))]
fn write_lane(
    v: View,
    palette: &[u32; 256],
    control: u32,
    a: Access,
    j: u32,
    memory: &mut [u8],
    picture: &mut [u32],
) -> u32
    ensures { LaneIn v palette.now control a j memory.old picture.old result memory.new picture.new }
{
    if bits::bit_of(j, a.enables) {
        let at = aperture::lane_place(control, a.offset, j);
        picture::poke::poke(v, palette, memory, picture, at, bits::lane_byte(j, a.word))
    } else {
        0
    }
}

// Lane after lane, through an aperture with this control; the number of words that changed.
pub(crate) fn write_lanes(
    v: View,
    palette: &[u32; 256],
    control: u32,
    a: Access,
    memory: &mut [u8],
    picture: &mut [u32],
) -> u32
    ensures { WindowIn v palette.now control a memory.old picture.old result memory.new picture.new }
{
    let mut changed = 0;
    for j in 0..4 {
        changed += write_lane(v, palette, control, a, j, memory, picture);
    }
    changed
}

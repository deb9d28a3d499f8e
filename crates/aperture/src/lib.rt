// Memory through an aperture: which modes are served, which lane each memory byte exchanges with, and the word that a read gives.
// An access's offset is the number that was handed in; a place is made of it at once, so that no sum of places wraps.
#![tactic(auto, unfolding(chip::specs::Aperture::swap_of, chip::specs::Aperture::served, chip::specs::Aperture::lane_of, chip::specs::Aperture::span, chip::specs::Aperture::reaches_memory, chip::specs::Aperture::reach, chip::specs::Aperture::read_lane, chip::specs::Aperture::word_from))]

ghost use Rattle.std.specs.Prelude.{◌≡◌, get_or};
ghost use Rattle.chip.specs.Units.{at_byte};
ghost use Rattle.chip.specs.Aperture.{swap_of, served, lane_of, byte_from, span, reaches_memory, read_lane, word_from};

use bits::bit_of;
use chip::{Bytes, at_byte};

// Whether the aperture's mode is served: no reserved swap code, no packed 16-bit mode, no SVGA and no ROM access.
pub fn mode_served(control: u32) -> bool
    ensures { result ≡ served control }
{
    control % 4 != 3 && !bit_of(3, control) && !bit_of(8, control) && !bit_of(9, control)
}

// The lane that memory byte o + i exchanges with, by the swap code (01, Apertures): i, 3 − i byte swapped, (i + 2) mod 4 half-word swapped. It is also the byte
// of lane i: the rule is its own inverse. Past 3 there is none: what it gives there is what the definition gives.
pub fn lane_of(swap: u32, i: u32) -> u32
    ensures { result ≡ lane_of swap i }
{
    match swap {
        1 => 3u32.saturating_sub(i),
        2 => (i % 4 + 2) % 4,
        _ => i,
    }
}

// The memory byte that lane j of an access at offset o exchanges with: a read and a write both ask here.
pub fn lane_place(control: u32, o: u32, j: u32) -> Bytes
    ensures { result ≡ byte_from (at_byte o) (lane_of (swap_of control) j) }
{
    at_byte(o).along(lane_of(control % 4, j) as usize)
}

// Whether the bytes that an access at offset o reaches are fitted.
pub fn reaches_memory(fitted: u32, control: u32, o: u32) -> bool
    ensures { result ≡ reaches_memory fitted (span control (at_byte o)) }
{
    at_byte(o).along(4) <= at_byte(fitted)
}

// The byte at k, and 0 past the end.
pub fn byte_at(memory: &[u8], k: Bytes) -> u8
    ensures { result ≡ get_or memory.now k.0 0 }
{
    memory.get(k.index()).copied().unwrap_or(0)
}

// What a read gives in lane j: the byte that the lane exchanges with.
fn read_lane(control: u32, memory: &[u8], o: u32, j: u32) -> u8
    ensures { result ≡ read_lane control memory.now (at_byte o) j }
{
    byte_at(memory, lane_place(control, o, j))
}

// The word that a read gives: each lane's byte in its lane.
pub fn word_from(control: u32, memory: &[u8], o: u32) -> u32
    ensures { result ≡ word_from control memory.now (at_byte o) }
{
    u32::from_le_bytes([0, 1, 2, 3].map(|j| read_lane(control, memory, o, j)))
}

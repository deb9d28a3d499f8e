// The subsystem numbers, the two halves of 2Ch: each is fixed by the first write with both of its lanes enabled (000, 2.14.16 and
// 2.14.17; 01, Configuration header).
ghost use Rattle.std.specs.Prelude.{◌&&◌, ◌≡◌};
ghost use Rattle.bits.specs.Choose.{pick};
ghost use Rattle.bits.specs.Bit.{bit};
ghost use Rattle.chip.specs.Subsystem.{halves_of, half_bits, once_moved, once_after};

use bits::{bit_of, bits_joined, bits_outside};

// m where a test passes, else no bit.
fn bits_if(t: bool, m: u32) -> u32
    ensures { result ≡ pick t m 0 }
{
    if t { m } else { 0 }
}

// Lanes a and b are both enabled.
fn both_lanes(e: u32, a: u32, b: u32) -> bool
    ensures { result ≡ (bit a e && bit b e) }
{
    bit_of(a, e) && bit_of(b, e)
}

// The halves whose lanes are both enabled: 1 the vendor's, 2 the ID's.
#[tactic(auto, unfolding(chip::specs::Subsystem::halves_of))]
fn halves_of(e: u32) -> u32
    ensures { result ≡ halves_of e }
{
    bits_if(both_lanes(e, 0, 1), 1) + bits_if(both_lanes(e, 2, 3), 2)
}

#[tactic(auto, unfolding(chip::specs::Subsystem::half_bits))]
pub fn half_bits(n: u32) -> u32
    ensures { result ≡ half_bits n }
{
    bits_joined(
        bits_if(bit_of(0, n), 0xFFFF),
        bits_if(bit_of(1, n), 0xFFFF0000),
    )
}

// The bits that a write stores, and the numbers that are fixed after it.
#[tactic(auto, unfolding(chip::specs::Subsystem::once_moved))]
pub fn once_moved(once: u32, e: u32) -> u32
    ensures { result ≡ once_moved once e }
{
    bits_outside(half_bits(halves_of(e)), half_bits(once))
}

#[tactic(auto, unfolding(chip::specs::Subsystem::once_after))]
pub fn once_after(once: u32, e: u32) -> u32
    ensures { result ≡ once_after once e }
{
    bits_joined(once, halves_of(e))
}

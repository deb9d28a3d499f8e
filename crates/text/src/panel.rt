// A panel's size and a number, as arguments.
ghost use Rattle.std.specs.Prelude.{◌≡◌};
ghost use Rattle.text.specs.Line.{number_of};
ghost use Rattle.text.specs.Size.{size_of};

use crate::Size;
use crate::find::parted;
use crate::number::number;

// One to eight decimal digits.
pub fn decimal(s: &[u8]) -> Option<u32>
    ensures { result ≡ number_of 10 s.now }
{
    number(10, s)
}

// WIDTHxHEIGHT.
#[tactic(auto, unfolding(crate::specs::Size::size_of))]
pub fn size(s: &[u8]) -> Option<Size>
    ensures { result ≡ size_of s.now }
{
    let (width, height) = parted(s, b'x')?;
    Some(Size {
        width: decimal(width)?,
        height: decimal(height)?,
    })
}

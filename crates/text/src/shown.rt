// What a person is shown: a word of which some bits are unknown, and the colour of a dot.
ghost use Rattle.std.specs.Prelude.{◌≡◌, ◌<◌};
ghost use Rattle.text.specs.Shown.{digit_shown, word_shown, colour_shown};

use crate::numeral::glyph;
use chip::Colour;

#[tactic(auto, unfolding(crate::specs::Shown::digit_shown))]
fn digit_at(word: u32, known: u32, unit: u32) -> u8
    requires { 0 < unit }
    ensures { result ≡ digit_shown word known unit }
{
    if known / unit % 16 == 15 {
        glyph(word / unit % 16)
    } else {
        b'?'
    }
}

// Eight digits, with ? for each that has an unknown bit.
#[tactic(auto, unfolding(crate::specs::Shown::word_shown))]
pub fn word(shown: u32, known: u32) -> [u8; 8]
    ensures { result ≡ word_shown shown known }
{
    // Written out, as word_shown is: of a map over the eight units the proof did not close.
    [
        digit_at(shown, known, 0x10000000),
        digit_at(shown, known, 0x1000000),
        digit_at(shown, known, 0x100000),
        digit_at(shown, known, 0x10000),
        digit_at(shown, known, 0x1000),
        digit_at(shown, known, 0x100),
        digit_at(shown, known, 0x10),
        digit_at(shown, known, 1),
    ]
}

// The colour of a dot's word: a drawn one's own, and a loud one for each reason why a dot is not drawn.
#[tactic(auto, unfolding(crate::specs::Shown::colour_shown))]
pub fn colour(dot: u32) -> Colour
    ensures { result ≡ colour_shown dot }
{
    let (red, green, blue) = match dot >> 24 {
        1 => return Colour::of_word(dot),
        2 => (0xFF, 0, 0xFF),
        3 => (0xFF, 0x80, 0),
        4 => (0x80, 0xFF, 0),
        5 => (0, 0xFF, 0xFF),
        _ => (0xFF, 0xFF, 0xFF),
    };
    Colour { red, green, blue }
}

// What a read or a look sees before its lanes are picked.
#![tactic(auto, unfolding(chip::specs::Port::port_at, chip::specs::Port::wide, chip::specs::Port::known_in, chip::specs::Port::word_in))]

ghost use Rattle.std.specs.Prelude.{ℕ, ◌≡◌, get_or};
ghost use Rattle.bits.specs.Bit.{bit};
ghost use Rattle.bits.specs.Word.{full};
ghost use Rattle.chip.specs.Units.{at_byte};
ghost use Rattle.chip.specs.Bank.{misc_control};
ghost use Rattle.chip.specs.Palette.{entry_of};
ghost use Rattle.chip.specs.Aperture.{word_from};
ghost use Rattle.chip.specs.Parts.{made};
ghost use Rattle.chip.specs.Port.{seen, seen_part, known_in, word_in, port_at};
ghost use Rattle.model.specs.Places.{reply_of};

use chip::{Access, Dac, MISC_CONTROL, Place, ROWS, Reply, Seen};
use registers::bank::held;

fn seen_register(values: &[u32; ROWS], knowns: &[u32; ROWS], i: usize) -> Seen
    ensures { result ≡ seen (get_or values.now i 0) (get_or knowns.now i 0) }
{
    Seen {
        value: held(values, i),
        known: held(knowns, i),
    }
}

// PaletteWidth, bit 1 of RDMiscControl: 8 bits where it is set, else 6.
pub(crate) fn palette_wide(values: &[u32; ROWS]) -> bool
    ensures { result ≡ bit 1 (get_or values.now misc_control 0) }
{
    bits::bit_of(1, held(values, MISC_CONTROL))
}

fn seen_data(values: &[u32; ROWS], palette: &[u32; 256], d: Dac) -> Seen
    ensures { result ≡ seen_part (bit 1 (get_or values.now misc_control 0)) d.component (entry_of palette.now d.address) }
{
    palette::entries::seen_palette(palette_wide(values), d, palette)
}

fn seen_window(values: &[u32; ROWS], a: Access, i: usize, memory: &[u8]) -> Seen
    ensures { result ≡ seen (word_from (get_or values.now i 0) memory.now (at_byte a.offset)) full }
{
    let control = held(values, i);
    Seen {
        value: aperture::word_from(control, memory, a.offset),
        known: 0xFFFFFFFF,
    }
}

pub(crate) fn seen_at(
    values: &[u32; ROWS],
    knowns: &[u32; ROWS],
    palette: &[u32; 256],
    d: Dac,
    a: Access,
    p: Place,
    memory: &[u8],
) -> Seen
    ensures { (w h f o : ℕ) → result ≡ (port_at (made w h f o values.now knowns.now palette.now d) a p).seen memory.now }
{
    match p {
        Place::Register(i) => seen_register(values, knowns, i),
        Place::Address => Seen {
            value: u32::from(d.address),
            known: u32::from(d.known),
        },
        Place::PaletteData => seen_data(values, palette, d),
        Place::Window(i) => seen_window(values, a, i, memory),
        Place::Blank => Seen {
            value: 0,
            known: 0xFFFFFFFF,
        },
        Place::Nowhere => Seen { value: 0, known: 0 },
    }
}

// In the enabled lanes: a bit is zero wherever it is not known.
pub(crate) fn known_in(x: Seen, e: u32) -> u32
    ensures { result ≡ known_in x e }
{
    bits::bits_inside(x.known, bits::lanes_of(e))
}

pub(crate) fn word_in(x: Seen, e: u32) -> u32
    ensures { result ≡ word_in x e }
{
    bits::bits_inside(x.value, known_in(x, e))
}

pub(crate) fn reply_of(x: Seen, e: u32) -> Reply
    ensures { result ≡ reply_of x e }
{
    Reply {
        status: 0,
        word: word_in(x, e),
        known: known_in(x, e),
    }
}

// The palette's entries, and how a component is kept and shown.
#![tactic(auto, unfolding(chip::specs::Palette::empty_palette, chip::specs::Palette::store_entry, chip::specs::Palette::kept_as, chip::specs::Palette::shown_as, chip::specs::Palette::part_of, chip::specs::Palette::entry_of, chip::specs::Palette::is_stored))]

ghost use Rattle.std.specs.Prelude.{◌≡◌, leb};
ghost use Rattle.bits.specs.Options.{option_of};
ghost use Rattle.chip.specs.Palette.{empty_palette, entry_of, store_entry, word_ok, kept_as, shown_as, part_of, palette_ok};
ghost use Rattle.chip.specs.Port.{seen_part};

use chip::{Colour, Dac, Seen};

// What a palette entry holds: a colour, or nothing where it was never stored.
pub fn entry_of(p: &[u32; 256], e: u8) -> Option<Colour>
    ensures { result ≡ option_of (entry_of p.now e) }
{
    let w = p[usize::from(e)];
    (w / 0x1000000 == 1).then(|| Colour::of_word(w))
}

// Entry e takes a colour, in place.
pub fn store_entry(p: &mut [u32; 256], e: u8, c: Colour)
    ensures { p.new ≡ store_entry p.old e c }
{
    p[usize::from(e)] = u32::from(c);
}

// A byte as it is stored: with 8 bits as it is, with 6 bits its lowest six, and the upper two of them once more below (C-13): full
// scale is 255.
pub fn kept_as(wide: bool, v: u8) -> u8
    ensures { result ≡ kept_as wide v }
{
    if wide {
        v
    } else {
        let w = v % 64;
        4 * w + w / 16
    }
}

// A stored byte as it is read: with 8 bits as it is, with 6 bits divided by 4.
pub fn shown_as(wide: bool, v: u8) -> u8
    ensures { result ≡ shown_as wide v }
{
    if wide { v } else { v / 4 }
}

// Component 0 is red, 1 green, 2 blue.
pub fn part_of(c: u8, x: Colour) -> u8
    ensures { result ≡ part_of c x }
{
    match c {
        0 => x.red,
        1 => x.green,
        _ => x.blue,
    }
}

// An entry's word with the flag turned over: a stored colour loses it, and 0, which was never stored, becomes 01000000h. Every word that refusal 1
// refuses becomes larger than that.
#[tactic(auto, using(crate::proofs::EntryLaws::turned_ok))]
fn turned(w: u32) -> u32
    ensures { leb result 0x01000000 ≡ word_ok w }
{
    w ^ 0x01000000
}

// Refusal 1's test of the palette: the largest of the turned words decides, so that a turn of the loop is an XOR and a maximum.
#[tactic(auto, using(std::proofs::lemmas::Bool::Decides::nat_tests), unfolding(chip::specs::Palette::entry_ok, chip::specs::Palette::palette_ok))]
pub fn palette_sound(p: &[u32; 256]) -> bool
    ensures { result ≡ palette_ok p.now }
{
    let mut most = 0;
    for w in p {
        most = turned(*w).max(most);
    }
    most <= 0x01000000
}

// What a read or a look of palette data sees: a component as the width shows it, and eight unknown bits of an entry never stored.
pub fn seen_palette(wide: bool, d: Dac, p: &[u32; 256]) -> Seen
    ensures { result ≡ seen_part wide d.component (entry_of p.now d.address) }
{
    match entry_of(p, d.address) {
        Some(x) => Seen {
            value: u32::from(shown_as(wide, part_of(d.component, x))),
            known: 0xFF,
        },
        None => Seen { value: 0, known: 0 },
    }
}

// The palette at reset: nothing stored.
pub fn reset_palette(p: &mut [u32; 256])
    ensures { p.new ≡ empty_palette }
{
    *p = [0; 256];
}

// What the picture reads of a bank, by value: the word of every dot, base, stride and mask, and the panel. And the words of the 256 bytes by a view and a
// palette.
ghost use Rattle.std.specs.Prelude.{◌≡◌, ◌<◌, ◌≤◌, length, unwrap_or};
ghost use Rattle.bits.specs.Word.{inside};
ghost use Rattle.chip.specs.Palette.{entry_of};
ghost use Rattle.chip.specs.View.{mask_of, not_indexed, unplaced};
ghost use Rattle.chip.specs.Picture.{colour_word};
ghost use Rattle.picture.specs.View.{shown_in, view_in, units_in, byte_word};
ghost use Rattle.picture.specs.Draw.{TableFrom};
ghost use Rattle.picture.specs.Layout.{layout_of};
ghost use Rattle.picture.specs.Poke.{row_byte};

use chip::{Bytes, COLOR_MODE, PIXEL_MASK, ROWS, SCREEN_BASE, SCREEN_STRIDE, Units, in_bytes};

// Base and stride are ScreenBase and ScreenStride as the bank holds them: bits 0 to 19 count, in units of eight bytes. So every value is a view.
#[derive(Clone, Copy)]
pub struct View {
    // the word of every dot, where rule 1 or 2 gives it; none where each dot has its own
    pub shown: Option<u32>,
    pub base: u32,
    pub stride: u32,
    pub mask: u8,
    pub width: u32,
    pub height: u32,
}

#[tactic(auto, unfolding(chip::specs::View::not_indexed))]
fn not_indexed(values: &[u32; ROWS]) -> bool
    ensures { result ≡ not_indexed values.now }
{
    values[COLOR_MODE] % 32 != 0x10
}

#[tactic(auto, unfolding(chip::specs::View::unplaced))]
fn is_unplaced(knowns: &[u32; ROWS]) -> bool
    ensures { result ≡ unplaced knowns.now }
{
    knowns[SCREEN_BASE] % 0x100000 != 0xFFFFF
        || knowns[SCREEN_STRIDE] % 0x100000 != 0xFFFFF
        || knowns[PIXEL_MASK] % 256 != 0xFF
}

// 03000000h and 05000000h, and 02 and 04 below, are words and no enum: a dot's word is what C reads in the picture.
#[tactic(auto, unfolding(crate::specs::View::shown_in))]
fn shown_in(values: &[u32; ROWS], knowns: &[u32; ROWS]) -> Option<u32>
    ensures { result ≡ shown_in values.now knowns.now }
{
    if not_indexed(values) {
        Some(0x03000000)
    } else if is_unplaced(knowns) {
        Some(0x05000000)
    } else {
        None
    }
}

#[tactic(auto, unfolding(chip::specs::View::mask_of))]
fn mask_of(values: &[u32; ROWS]) -> u8
    ensures { result ≡ mask_of values.now }
{
    (values[PIXEL_MASK] % 256) as u8
}

// The view of a panel that a bank gives.
#[tactic(auto, unfolding(crate::specs::View::view_in))]
pub fn view_of(width: u32, height: u32, values: &[u32; ROWS], knowns: &[u32; ROWS]) -> View
    ensures { result ≡ view_in width height values.now knowns.now }
{
    View {
        shown: shown_in(values, knowns),
        base: values[SCREEN_BASE],
        stride: values[SCREEN_STRIDE],
        mask: mask_of(values),
        width,
        height,
    }
}

// The word past memory's end: rule 3's where each dot has its own.
fn past_of(shown: Option<u32>) -> u32
    ensures { result ≡ unwrap_or shown 0x02000000 }
{
    shown.unwrap_or(0x02000000)
}

// What of a view the redraws read beside its table.
#[derive(Clone, Copy)]
pub(crate) struct Layout {
    pub(crate) past: u32,
    pub(crate) base: Units,
    pub(crate) stride: Units,
    pub(crate) width: usize,
    pub(crate) height: usize,
}

impl Layout {
    // Where row y starts: the sum in units, converted once.
    pub(crate) fn row(self, y: usize) -> Bytes
        requires { (self.base.0 < 0x100000) × (self.stride.0 < 0x100000) × (y ≤ 1024) }
        ensures { result.0 ≡ row_byte self.base.0 self.stride.0 y }
    {
        in_bytes(self.base.plus(self.stride.times(y as u32)))
    }
}

fn units_of(w: u32) -> Units
    ensures { result ≡ units_in w }
{
    Units(w % 0x100000)
}

#[tactic(auto, unfolding(crate::specs::Layout::layout_of))]
pub(crate) fn layout_of(v: View) -> Layout
    ensures { result ≡ layout_of v }
{
    Layout {
        past: past_of(v.shown),
        base: units_of(v.base),
        stride: units_of(v.stride),
        width: v.width as usize,
        height: v.height as usize,
    }
}

// Rules 4 and 5: the word of a palette entry's dots is the entry's own, where a colour was stored.
#[tactic(auto, using(crate::proofs::ViewLaws::entry_coloured, crate::proofs::ViewLaws::entry_unstored))]
pub fn entry_word(palette: &[u32; 256], e: u8) -> u32
    ensures { result ≡ colour_word (entry_of palette.now e) }
{
    let w = palette[usize::from(e)];
    if w / 0x1000000 == 1 { w } else { 0x04000000 }
}

#[tactic(auto, unfolding(bits::specs::Word::inside))]
pub(crate) fn masked(b: u8, mask: u8) -> u8
    ensures { result ≡ inside b mask }
{
    b & mask
}

// The word of a byte's dots.
#[tactic(auto, unfolding(crate::specs::View::byte_word))]
pub(crate) fn byte_word(v: View, palette: &[u32; 256], b: u8) -> u32
    ensures { result ≡ byte_word v palette.now b }
{
    v.shown
        .unwrap_or_else(|| entry_word(palette, masked(b, v.mask)))
}

// The words of the 256 bytes, with one word in every place where every dot has it.
pub(crate) fn fill_table(v: View, palette: &[u32; 256], t: &mut [u32; 256])
    requires { length t.old ≡ 256 }
    ensures { TableFrom v palette.now 256 t.new }
{
    for (b, w) in t.iter_mut().enumerate() {
        *w = byte_word(v, palette, b as u8);
    }
}

// A write at a place, in place: each leaf is lent what it alters and nothing else. What the picture shows is taken before the store: the view, or the
// entry's word.
ghost use Rattle.std.specs.Prelude.{ℕ, List, ◌≡◌};
ghost use Rattle.std.proofs.Math.Option.{get_or};
ghost use Rattle.chip.specs.declared.Dac.{Dac};
ghost use Rattle.chip.specs.declared.Place.TheVariants.{Register, PaletteData};
ghost use Rattle.chip.specs.Parts.{dac_of, made, state_of};
ghost use Rattle.model.specs.Parts.{row_shows};
ghost use Rattle.chip.specs.Port.{aim_patch, port_at};
ghost use Rattle.picture.specs.View.{view_in};
ghost use Rattle.model.specs.Places.{Puts, Paints};

use crate::window::write_lanes;
use bits::{bit_of, lane_byte};
use chip::{
    Access, COLOR_MODE, Colour, DAC_BYTES, PIXEL_MASK, Place, ROWS, SCREEN_BASE, SCREEN_STRIDE,
};
use palette::dac::{dac_of, put_dac};
use picture::view::{View, view_of};
use registers::bank::{held, write_row};

// What the picture reads of the bank.
#[tactic(auto, unfolding(crate::specs::Parts::row_shows))]
fn row_shows(i: usize) -> bool
    ensures { result ≡ row_shows i }
{
    matches!(i, SCREEN_BASE | SCREEN_STRIDE | PIXEL_MASK | COLOR_MODE)
}

// A register: the old view, the store, the new view, and the redraw between the two; a row that no view reads needs none.
#[tactic(auto, using(crate::proofs::PlaceLaws::none_changed, crate::proofs::PlaceLaws::state_drawn, crate::proofs::PlaceLaws::panel_fit, crate::proofs::PlaceLaws::row_drawn), unfolding(chip::specs::Patch::applied, chip::specs::Patch::memory_with, chip::specs::Port::port_at, chip::specs::Port::row_patch))]
fn write_register(
    width: u32,
    height: u32,
    once: &mut u32,
    values: &mut [u32; ROWS],
    knowns: &mut [u32; ROWS],
    palette: &[u32; 256],
    a: Access,
    i: usize,
    memory: &[u8],
    picture: &mut [u32],
) -> u32
    ensures { (f : ℕ) (d : Dac) → Puts (made width height f once.old values.old knowns.old palette.now d) a (Register i) memory.now picture.old result
        (made width height f once.new values.new knowns.new palette.now d) memory.now picture.new }
{
    if row_shows(i) {
        let old = view_of(width, height, values, knowns);
        write_row(once, values, knowns, i, a);
        let new = view_of(width, height, values, knowns);
        picture::redraw::redraw(old, new, palette, memory, picture)
    } else {
        write_row(once, values, knowns, i, a);
        0
    }
}

#[tactic(auto, unfolding(chip::specs::Port::aim_patch))]
fn write_address(dac: &mut [u8; DAC_BYTES], a: Access)
    ensures { dac_of dac.new ≡ get_or (aim_patch a).dac (dac_of dac.old) }
{
    if bit_of(0, a.enables) {
        put_dac(dac, palette::dac::aimed_at(lane_byte(0, a.word)));
    }
}

// The third component of an entry: its old word, the store, and the dots that show it.
#[tactic(auto, using(crate::proofs::PlaceLaws::entry_drawn))]
fn paint(
    v: View,
    palette: &mut [u32; 256],
    e: u8,
    c: Colour,
    memory: &[u8],
    picture: &mut [u32],
) -> u32
    ensures { Paints v e c memory.now palette.old picture.old result palette.new picture.new }
{
    let old = picture::view::entry_word(palette, e);
    palette::entries::store_entry(palette, e, c);
    let new = picture::view::entry_word(palette, e);
    picture::redraw::redraw_entry(v, e, old, new, memory, picture)
}

#[tactic(auto, using(crate::proofs::PlaceLaws::none_changed, crate::proofs::PlaceLaws::state_drawn, crate::proofs::PlaceLaws::panel_fit, crate::proofs::PlaceLaws::dac_drawn), unfolding(chip::specs::Patch::applied, chip::specs::Patch::memory_with, chip::specs::Port::port_at, chip::specs::Port::paint_patch, chip::specs::Port::wide, chip::specs::Port::kept_from, chip::specs::Dac::completed_by))]
fn write_data(
    width: u32,
    height: u32,
    values: &[u32; ROWS],
    knowns: &[u32; ROWS],
    palette: &mut [u32; 256],
    dac: &mut [u8; DAC_BYTES],
    a: Access,
    memory: &[u8],
    picture: &mut [u32],
) -> u32
    ensures { (f o : ℕ) → Puts (state_of width height f o values.now knowns.now palette.old dac.old) a PaletteData memory.now picture.old result
        (state_of width height f o values.now knowns.now palette.new dac.new) memory.now picture.new }
{
    if !bit_of(0, a.enables) {
        return 0;
    }
    let d = dac_of(dac);
    let v = palette::entries::kept_as(crate::seen::palette_wide(values), lane_byte(0, a.word));
    put_dac(dac, palette::dac::after_paint(d, v));
    if !palette::dac::completes(d) {
        return 0;
    }
    let c = Colour {
        red: d.red,
        green: d.green,
        blue: v,
    };
    let shown = view_of(width, height, values, knowns);
    paint(shown, palette, d.address, c, memory, picture)
}

// A write at a place; the number of words of the picture that changed.
#[tactic(auto, using(crate::proofs::PlaceLaws::none_changed, crate::proofs::PlaceLaws::state_drawn, crate::proofs::PlaceLaws::panel_fit, crate::proofs::PlaceLaws::dac_drawn), unfolding(chip::specs::Patch::applied, chip::specs::Patch::memory_with, chip::specs::Port::port_at, chip::specs::Port::aim_patch, chip::specs::Port::poke_patch))]
pub(crate) fn write_at(
    width: u32,
    height: u32,
    once: &mut u32,
    values: &mut [u32; ROWS],
    knowns: &mut [u32; ROWS],
    palette: &mut [u32; 256],
    dac: &mut [u8; DAC_BYTES],
    a: Access,
    p: Place,
    memory: &mut [u8],
    picture: &mut [u32],
) -> u32
    ensures { (f : ℕ) → Puts (state_of width height f once.old values.old knowns.old palette.old dac.old) a p memory.old picture.old result
        (state_of width height f once.new values.new knowns.new palette.new dac.new) memory.new picture.new }
{
    match p {
        Place::Register(i) => write_register(
            width, height, once, values, knowns, palette, a, i, memory, picture,
        ),
        Place::Address => {
            write_address(dac, a);
            0
        }
        Place::PaletteData => write_data(
            width, height, values, knowns, palette, dac, a, memory, picture,
        ),
        Place::Window(i) => {
            let v = view_of(width, height, values, knowns);
            write_lanes(v, palette, held(values, i), a, memory, picture)
        }
        Place::Blank | Place::Nowhere => 0,
    }
}

#[tactic(auto, unfolding(chip::specs::Port::port_at, chip::specs::Port::fetch_patch))]
fn fetch(dac: &mut [u8; DAC_BYTES], a: Access)
    ensures { (w h f o : ℕ) (vs ks q : List ℕ) → dac_of dac.new ≡ get_or (port_at (state_of w h f o vs ks q dac.old) a PaletteData).fetched.dac (dac_of dac.old) }
{
    if bit_of(0, a.enables) {
        let d = dac_of(dac);
        put_dac(dac, palette::dac::after_fetch(d));
    }
}

// A read alters the palette's address, component and stage, and nothing else.
#[tactic(auto, unfolding(chip::specs::Port::port_at))]
pub(crate) fn fetch_at(dac: &mut [u8; DAC_BYTES], a: Access, p: Place)
    ensures { (w h f o : ℕ) (vs ks q : List ℕ) → dac_of dac.new ≡ get_or (port_at (state_of w h f o vs ks q dac.old) a p).fetched.dac (dac_of dac.old) }
{
    if let Place::PaletteData = p {
        fetch(dac, a);
    }
}

// A redraw for a change of view, and for a palette entry's store: one pass over the panel, and nothing where panel and picture do not fit.
ghost use Rattle.std.specs.Prelude.{true, ◌≡◌, ◌*◌, length};
ghost use Rattle.chip.specs.Sound.{panel_ok};
ghost use Rattle.picture.specs.View.{dot_in, same_place, same_view, fits};
ghost use Rattle.picture.specs.Entry.{entry_marks};
ghost use Rattle.picture.specs.Draw.{Redraws, Part};

use crate::dot::Tables;
use crate::entry::{Mark, entry_rows};
use crate::rows::draw_rows;
use crate::view::{View, fill_table, layout_of};

#[tactic(auto, unfolding(chip::specs::Sound::panel_ok))]
pub fn panel_fits(width: u32, height: u32) -> bool
    ensures { result ≡ panel_ok width height }
{
    (1..=1024).contains(&width) && (1..=1024).contains(&height)
}

#[tactic(auto, using(crate::proofs::FitLaws::panel_product), unfolding(crate::specs::View::fits))]
pub(crate) fn both_fit(v: View, n: View, size: usize) -> bool
    ensures { result ≡ fits v n size }
{
    panel_fits(v.width, v.height) && n.width == v.width && size == (v.width * v.height) as usize
}

// View, palette and memory stay apart, as the public functions take them.
fn redraw_fit(v: View, n: View, palette: &[u32; 256], memory: &[u8], picture: &mut [u32]) -> u32
    requires { fits v n (length picture.old) ≡ true }
    ensures { Part (dot_in v palette.now memory.now) (dot_in n palette.now memory.now) 0 (v.height * v.width) picture.old result picture.new }
{
    let mut t0 = [0u32; 256];
    let mut t1 = [0u32; 256];
    fill_table(v, palette, &mut t0);
    fill_table(n, palette, &mut t1);
    let t = Tables {
        old: &t0,
        new: &t1,
        memory,
    };
    draw_rows(layout_of(v), layout_of(n), t, picture)
}

// The same base, stride, mask and width.
#[tactic(auto, unfolding(crate::specs::View::same_place))]
fn same_place(v: View, n: View) -> bool
    ensures { result ≡ same_place v n }
{
    (v.base, v.stride, v.mask, v.width) == (n.base, n.stride, n.mask, n.width)
}

// No dot's word differs: one word is every dot's before and after, as with the colour mode off, or each has its own and lies where it lay.
#[tactic(auto, unfolding(crate::specs::View::same_view))]
fn same_view(v: View, n: View) -> bool
    ensures { result ≡ same_view v n }
{
    match (v.shown, n.shown) {
        (Some(x), Some(y)) => x == y,
        (None, None) => same_place(v, n),
        _ => false,
    }
}

// The dots whose word differs between the two views take the new one; the number of words that changed.
pub fn redraw(v: View, n: View, palette: &[u32; 256], memory: &[u8], picture: &mut [u32]) -> u32
    ensures { Redraws (fits v n (length picture.old)) (dot_in v palette.now memory.now) (dot_in n palette.now memory.now) picture.old result picture.new }
{
    if same_view(v, n) || !both_fit(v, n, picture.len()) {
        return 0;
    }
    redraw_fit(v, n, palette, memory, picture)
}

// The dots that show palette entry e, as its word goes from a to b; the number of words that changed.
pub fn redraw_entry(v: View, e: u8, a: u32, b: u32, memory: &[u8], picture: &mut [u32]) -> u32
    ensures { Redraws (fits v v (length picture.old)) (entry_marks v e memory.now a) (entry_marks v e memory.now b) picture.old result picture.new }
{
    if v.shown.is_some() || !both_fit(v, v, picture.len()) {
        return 0;
    }
    let mark = Mark {
        mask: v.mask,
        entry: e,
        old: a,
        new: b,
    };
    entry_rows(layout_of(v), mark, memory, picture)
}

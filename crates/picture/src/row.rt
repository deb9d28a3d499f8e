// One row, from the old layout to the new one.
ghost use Rattle.std.specs.Prelude.{◌≡◌, ◌+◌, ◌^◌, ◌<◌, ◌≤◌, length};
ghost use Rattle.picture.specs.Draw.{RowDrawn, Inside, Tells};
ghost use Rattle.picture.specs.Row.{old_dots, new_dots, always, Reach, Room, From, cut_to, rest_of};

use crate::dot::{Row, Start, Tables, look, put};
use chip::Bytes;

// How many dots of a row lie inside memory.
pub(crate) fn inside(row: Bytes, width: usize, size: usize) -> usize
    ensures { Inside row.0 width size result }
{
    // saturating_sub and min alone are worked out again at each loop over the row: small panels then take 4 % more instructions
    let at = row.index();
    if size <= at { 0 } else { width.min(size - at) }
}

// The dots from first on, as many as width says: words gives the word before and after of each, by its column.
pub(crate) fn draw<F: Fn(usize) -> (u32, u32)>(
    first: usize,
    width: usize,
    picture: &mut [u32],
    words: F,
) -> u32
    requires room { first + width ≤ length picture.old }
    requires narrow { width ≤ 1024 }
    requires asked { (x : _) → x < width → F.pre words x }
    ensures few { result ≤ width }
    ensures drawn { (f : _) (g : _) → Tells (F.post words) f g first width → RowDrawn f g first width picture.old result picture.new }
{
    let mut n: u32 = 0;
    for x in 0..width {
        let (a, b) = words(x);
        n += put(picture, first + x, a, b);
    }
    n
}

// Dot by dot, each asking where memory ends.
fn draw_row(row: Row, t: Tables, picture: &mut [u32]) -> u32
    requires { Reach (2 ^ 41) row (length picture.old) }
    ensures { RowDrawn (old_dots row t.entry.old.now t.entry.memory.now) (new_dots row t.entry.new.now t.entry.memory.now) row.first row.width picture.old result picture.new }
{
    draw(
        row.first,
        row.width,
        picture,
        |x| (
            look(row.old.past, row.old.at.along(x), t.old, t.memory),
            look(row.new.past, row.new.at.along(x), t.new, t.memory),
        ),
    )
}

// The row from its dot d on.
fn rest_of(row: Row, d: usize) -> Row
    requires { From row d }
    ensures { result ≡ rest_of row d }
{
    Row {
        old: Start {
            at: row.old.at.along(d),
            ..row.old
        },
        new: Start {
            at: row.new.at.along(d),
            ..row.new
        },
        first: row.first + d,
        width: row.width - d,
    }
}

// The row up to its dot d.
fn cut_to(row: Row, d: usize) -> Row
    ensures { result ≡ cut_to row d }
{
    Row { width: d, ..row }
}

// A row none of whose bytes lies in memory, in either layout.
fn past_row(row: Row, picture: &mut [u32]) -> u32
    requires { Room row (length picture.old) }
    ensures { RowDrawn (always row.old.past) (always row.new.past) row.first row.width picture.old result picture.new }
{
    let a = row.old.past;
    let b = row.new.past;
    if a == b {
        return 0;
    }
    draw(row.first, row.width, picture, |_| (a, b))
}

// The rest of a row, dot by dot as far as it lies in memory in one layout; past memory's end in both no dot is looked up, and mostly none changes.
fn rest_row(row: Row, t: Tables, picture: &mut [u32]) -> u32
    requires { Reach (2 ^ 41) row (length picture.old) }
    ensures { RowDrawn (old_dots row t.entry.old.now t.entry.memory.now) (new_dots row t.entry.new.now t.entry.memory.now) row.first row.width picture.old result picture.new }
{
    let one = inside(row.old.at, row.width, t.memory.len());
    let two = inside(row.new.at, row.width, t.memory.len());
    let d = one.max(two);
    let n = draw_row(cut_to(row, d), t, picture);
    n + past_row(rest_of(row, d), picture)
}

// By the tables: as far as the row lies inside memory in both layouts no dot asks where memory ends.
pub(crate) fn both_row(row: Row, t: Tables, picture: &mut [u32]) -> u32
    requires { Reach (2 ^ 40) row (length picture.old) }
    ensures { RowDrawn (old_dots row t.entry.old.now t.entry.memory.now) (new_dots row t.entry.new.now t.entry.memory.now) row.first row.width picture.old result picture.new }
{
    let one = inside(row.old.at, row.width, t.memory.len());
    let dots = inside(row.new.at, one, t.memory.len());
    let n = draw(row.first, dots, picture, |x| {
        let v = t.memory[row.old.at.index() + x];
        let w = t.memory[row.new.at.index() + x];
        (t.old[usize::from(v)], t.new[usize::from(w)])
    });
    n + rest_row(rest_of(row, dots), t, picture)
}

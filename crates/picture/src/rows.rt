// Every dot of the picture, row by row.
ghost use Rattle.std.specs.Prelude.{◌*◌, length};
ghost use Rattle.picture.specs.Draw.{Part};
ghost use Rattle.picture.specs.Layout.{laid_dots, Laid, LaidIn};

use crate::dot::{Row, Start, Tables};
use crate::view::Layout;

// Every dot that can change, row after row. The panel is the old layout's. A loop of its own, as entry_rows and touch have: of a closure that alters
// the picture too little would be known afterwards.
pub(crate) fn draw_rows(old: Layout, new: Layout, t: Tables, picture: &mut [u32]) -> u32
    requires { (Laid old (length picture.old)) × (LaidIn old new (length picture.old)) }
    ensures { Part (laid_dots old old.width t.entry.old.now t.entry.memory.now) (laid_dots new old.width t.entry.new.now t.entry.memory.now) 0 (old.height * old.width) picture.old result picture.new }
{
    let mut n: u32 = 0;
    for y in 0..old.height {
        let row = Row {
            old: Start {
                past: old.past,
                at: old.row(y),
            },
            new: Start {
                past: new.past,
                at: new.row(y),
            },
            first: y * old.width,
            width: old.width,
        };
        n += crate::row::both_row(row, t, picture);
    }
    n
}

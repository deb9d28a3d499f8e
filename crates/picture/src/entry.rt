// The dots that show one palette entry, by comparing masked bytes, with no table looked up.
ghost use Rattle.std.specs.Prelude.{◌≡◌, ◌*◌, eqb, length};
ghost use Rattle.bits.specs.Choose.{pick};
ghost use Rattle.bits.specs.Word.{inside};
ghost use Rattle.picture.specs.Draw.{RowDrawn, Part};
ghost use Rattle.picture.specs.Entry.{row_marks, laid_marks, Strip};
ghost use Rattle.picture.specs.Layout.{Laid};

use crate::row::{draw, inside};
use crate::view::{Layout, masked};
use chip::{Bytes, in_bytes};

// The dots that show one entry: those whose byte inside the mask is the entry. And their word before and after.
#[derive(Clone, Copy)]
pub(crate) struct Mark {
    pub(crate) mask: u8,
    pub(crate) entry: u8,
    pub(crate) old: u32,
    pub(crate) new: u32,
}

impl Mark {
    // A byte's words: at another entry's 0, and not the other word, so that the compiler takes all tests of the words out of the loop.
    fn words(self, byte: u8) -> (u32, u32)
        ensures { (result.0 ≡ pick (eqb (inside byte self.mask) self.entry) self.old 0) × (result.1 ≡ pick (eqb (inside byte self.mask) self.entry) self.new 0) }
    {
        if masked(byte, self.mask) == self.entry {
            (self.old, self.new)
        } else {
            (0, 0)
        }
    }
}

// The dots of a row that the mark is at: the row's bytes start at row, its dots at first.
fn entry_row(
    mark: Mark,
    row: Bytes,
    first: usize,
    width: usize,
    memory: &[u8],
    picture: &mut [u32],
) -> u32
    requires { Strip row.0 first width (length picture.old) }
    ensures { RowDrawn (row_marks mark.mask mark.entry row.0 first memory.now mark.old) (row_marks mark.mask mark.entry row.0 first memory.now mark.new) first width picture.old result picture.new }
{
    let dots = inside(row, width, memory.len());
    draw(
        first,
        dots,
        picture,
        |x| mark.words(memory[row.index() + x]),
    )
}

// Every dot that the mark is at, row after row.
pub(crate) fn entry_rows(l: Layout, mark: Mark, memory: &[u8], picture: &mut [u32]) -> u32
    requires { Laid l (length picture.old) }
    ensures { Part (laid_marks l mark.mask mark.entry memory.now mark.old) (laid_marks l mark.mask mark.entry memory.now mark.new) 0 (l.height * l.width) picture.old result picture.new }
{
    // the row's place is a sum that goes along, and no l.row(y), which the compiler works out four times a row: then narrow panels take up to twice as long
    let mut n: u32 = 0;
    let mut u = l.base;
    for y in 0..l.height {
        n += entry_row(mark, in_bytes(u), y * l.width, l.width, memory, picture);
        u = u.plus(l.stride);
    }
    n
}

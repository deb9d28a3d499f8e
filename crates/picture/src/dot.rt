// One dot: its word from a table, and the store of a new word, with no branch on what is stored.
ghost use Rattle.std.specs.Prelude.{◌≡◌, ◌<◌, length, eqb};
ghost use Rattle.bits.specs.Choose.{pick};
ghost use Rattle.chip.specs.Picture.{chosen};
ghost use Rattle.picture.specs.Draw.{look_of, Put};

use chip::Bytes;

// Where a row's bytes start in a layout, and the layout's word past memory's end.
#[derive(Clone, Copy)]
pub(crate) struct Start {
    pub(crate) past: u32,
    pub(crate) at: Bytes,
}

// A row of the panel in the old layout and in the new one, and its dots in the picture.
#[derive(Clone, Copy)]
pub(crate) struct Row {
    pub(crate) old: Start,
    pub(crate) new: Start,
    pub(crate) first: usize,
    pub(crate) width: usize,
}

// Memory, and the words of its bytes in the old layout and in the new one.
#[derive(Clone, Copy)]
pub(crate) struct Tables<'a> {
    pub(crate) old: &'a [u32; 256],
    pub(crate) new: &'a [u32; 256],
    pub(crate) memory: &'a [u8],
}

fn choose(a: u32, b: u32, p: u32) -> u32
    ensures { result ≡ chosen a b p }
{
    if a == b { p } else { b }
}

fn differs(p: u32, q: u32) -> u32
    ensures { result ≡ pick (eqb p q) 0 1 }
{
    u32::from(p != q)
}

// The new word b at dot k where it differs from a; 1 where the dot's word changes.
pub(crate) fn put(picture: &mut [u32], k: usize, a: u32, b: u32) -> u32
    requires { k < length picture.old }
    ensures { Put picture.old k a b result picture.new }
{
    let p = picture[k];
    let q = choose(a, b, p);
    picture[k] = q;
    differs(p, q)
}

// The word of a dot whose byte is at a place: the table's, or the word past memory's end.
#[tactic(auto, unfolding(crate::specs::Draw::look_of))]
pub(crate) fn look(past: u32, at: Bytes, table: &[u32; 256], memory: &[u8]) -> u32
    ensures { result ≡ look_of past at.0 table.now memory.now }
{
    match memory.get(at.index()) {
        Some(b) => table[usize::from(*b)],
        None => past,
    }
}

// Numbers as text, in a line that is being written.
ghost use Rattle.std.specs.Prelude.{◌≡◌, [], ◌∷◌, ◌+◌, ◌≤◌, ◌<◌};
ghost use Rattle.text.specs.Numeral.{glyph_of, is_short, numeral_of};
ghost use Rattle.text.specs.Answer.{Wrote};

// Not by char::from_digit, whose None would have to be answered here.
#[tactic(auto, unfolding(crate::specs::Numeral::glyph_of))]
pub(crate) fn glyph(d: u32) -> u8
    requires { d < 16 }
    ensures { result ≡ glyph_of d }
{
    if d < 10 {
        b'0' + d as u8
    } else {
        b'a' - 10 + d as u8
    }
}

#[tactic(auto, unfolding(crate::specs::Numeral::is_short))]
fn is_short(base: u32, least: u32, n: u32) -> bool
    ensures { result ≡ is_short base least n }
{
    n < base && least <= 1
}

// The line so far, and where its next byte goes. An array: nothing here is on the heap.
#[derive(Clone, Copy)]
pub(crate) struct Line {
    pub(crate) bytes: [u8; 40],
    pub(crate) at: usize,
}

impl Line {
    pub(crate) fn put(&mut self, b: u8)
        requires { self.old.at < 40 }
        ensures { Wrote (b ∷ []) self.old.at self.old.bytes self.new.at self.new.bytes }
    {
        self.bytes[self.at] = b;
        self.at += 1;
    }

    // The number, at least so many digits of it, and at most so many places.
    #[tactic(auto, using(crate::proofs::WroteLaws::numeral_none, crate::proofs::WroteLaws::numeral_length))]
    pub(crate) fn numeral(&mut self, base: u32, least: u32, places: u32, n: u32)
        requires base_nonzero { 0 < base }
        requires base_bound { base ≤ 16 }
        requires places_in_bounds { self.old.at + places ≤ 40 }
        ensures { Wrote (numeral_of base least places n) self.old.at self.old.bytes self.new.at self.new.bytes }
    {
        if places == 0 {
            return;
        }
        if !is_short(base, least, n) {
            self.numeral(base, least.saturating_sub(1), places - 1, n / base);
        }
        self.put(glyph(n % base));
    }
}

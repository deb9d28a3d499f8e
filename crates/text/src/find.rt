// The first place of a byte.
ghost use Rattle.std.specs.Prelude.{◌≡◌, ◌<◌, ◌==◌, suc, length, drop, position, MatchOption};
ghost use Rattle.text.specs.Gather.{up_to};

// By the index: the library's position takes seven instructions a byte, and this five, which tells on long lines.
#[tactic(auto, using(crate::proofs::FieldLaws::passed_more))]
fn place(s: &[u8], b: u8) -> Option<usize>
    ensures { result ≡ position (λ x. x == b) s.now }
{
    for i in 0..s.len() {
        if s[i] == b {
            return Some(i);
        }
    }
    None
}

// How many bytes stand before the first b: the length where there is none, as find_one has it.
pub fn find(s: &[u8], b: u8) -> usize
    ensures { result ≡ length (up_to b s.now) }
{
    place(s, b).unwrap_or(s.len())
}

// What stands before the first b, and what behind it. By find, so that what is proved of find holds what a line is parted by.
#[tactic(auto, using(crate::proofs::FieldLaws::up_to_all))]
pub(crate) fn parted(s: &[u8], b: u8) -> Option<(&[u8], &[u8])>
    ensures { MatchOption result (up_to b s.now ≡ s.now) (λ p. (p.0.now ≡ up_to b s.now) × (p.1.now ≡ drop (suc (length (up_to b s.now))) s.now) × (length (up_to b s.now) < length s.now)) }
{
    let at = find(s, b);
    if at < s.len() {
        Some((&s[..at], &s[at + 1..]))
    } else {
        None
    }
}

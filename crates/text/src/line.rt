// What a line asks for: its fields in turn, parted by single spaces.
ghost use Rattle.std.specs.Prelude.{◌≡◌, [], ◌∷◌, ℕ, List, MatchOption, option_and_then};
ghost use Rattle.text.specs.Line.{line_of, fields_of, kind_first, target_in, target_next, enables_next};

use crate::find::parted;
use crate::number::number;
use chip::{Access, Kind};

// With looks, a line may ask for a look.
#[tactic(auto, using(crate::proofs::LineLaws::line_long, crate::proofs::LineLaws::line_short, crate::proofs::LineLaws::kind_alone, crate::proofs::LineLaws::target_alone, crate::proofs::LineLaws::target_goes, crate::proofs::LineLaws::offset_alone, crate::proofs::LineLaws::offset_goes))]
pub fn read(s: &[u8], looks: bool) -> Option<Access>
    ensures { result ≡ line_of looks s.now }
{
    if 64 < s.len() {
        return None;
    }
    let (first, rest) = field(s)?;
    let kind = kind(first, looks)?;
    let (second, rest) = field(rest)?;
    let target = target(second)?;
    let (third, rest) = field(rest)?;
    let offset = number(16, third)?;
    access(rest, kind, target, offset)
}

// The first field, and the rest behind its space.
fn field(s: &[u8]) -> Option<(&[u8], &[u8])>
    ensures { MatchOption result (fields_of s.now ≡ s.now ∷ []) (λ p. fields_of s.now ≡ p.0.now ∷ fields_of p.1.now) }
{
    parted(s, b' ')
}

// The kind that the first field names; the fields behind it are the kind's.
#[tactic(auto, unfolding(crate::specs::Line::kind_first, crate::specs::Line::kind_next))]
fn kind(field: &[u8], looks: bool) -> Option<Kind>
    ensures { (fs : List (List ℕ)) → kind_first looks (field.now ∷ fs) ≡ option_and_then (λ k. target_next k fs) result }
{
    match field {
        [b'r'] => Some(Kind::Read),
        [b'w'] => Some(Kind::Write),
        [b'l'] if looks => Some(Kind::Look),
        _ => None,
    }
}

// One decimal digit.
#[tactic(auto, using(crate::proofs::LineLaws::target_one, crate::proofs::LineLaws::target_long))]
fn target(field: &[u8]) -> Option<u32>
    ensures { result ≡ target_in field.now }
{
    let [digit] = field else {
        return None;
    };
    char::from(*digit).to_digit(10)
}

// The enables, and behind them a write's word and nothing more.
#[tactic(auto, using(crate::proofs::LineLaws::enables_goes, crate::proofs::LineLaws::word_goes, crate::proofs::LineLaws::read_more, crate::proofs::LineLaws::write_less, crate::proofs::LineLaws::read_ends))]
fn access(s: &[u8], kind: Kind, target: u32, offset: u32) -> Option<Access>
    ensures { result ≡ enables_next kind target offset (fields_of s.now) }
{
    match (kind, field(s)) {
        (Kind::Write, Some((enables, word))) => {
            let enables = number(16, enables)?;
            Some(Access::write(target, offset, enables, number(16, word)?))
        }
        (Kind::Read, None) => Some(Access::read(target, offset, number(16, s)?)),
        (Kind::Look, None) => Some(Access::look(target, offset, number(16, s)?)),
        _ => None,
    }
}

// A field that is a number: one to eight digits of a base up to 16.
ghost use Rattle.std.specs.Prelude.{◌≡◌, ◌≤◌};
ghost use Rattle.text.specs.Line.{number_of};

#[tactic(auto, using(crate::proofs::NumberLaws::number_empty, crate::proofs::NumberLaws::number_long, crate::proofs::NumberLaws::number_good, crate::proofs::NumberLaws::read_all, crate::proofs::NumberLaws::power_small, crate::proofs::NumberLaws::times_less, crate::proofs::NumberLaws::read_stop))]
pub(crate) fn number(base: u32, s: &[u8]) -> Option<u32>
    requires least { 2 ≤ base }
    requires most { base ≤ 16 }
    ensures { result ≡ number_of base s.now }
{
    if s.is_empty() || 8 < s.len() {
        return None;
    }
    let mut n = 0;
    for b in s {
        n = n * base + char::from(*b).to_digit(base)?;
    }
    Some(n)
}

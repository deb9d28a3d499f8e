// The line that an answer is printed as.
ghost use Rattle.std.specs.Prelude.{[], ◌∷◌, ◌++◌, ◌+◌, ◌≤◌};
ghost use Rattle.text.specs.Numeral.{decimal_of, word_text};
ghost use Rattle.text.specs.Answer.{answer_text, Wrote};

use crate::numeral::Line;

// A number without leading zeros, and the byte that ends it.
#[tactic(auto, using(crate::proofs::WroteLaws::numeral_length))]
fn decimal(line: &mut Line, n: u32, last: u8)
    requires { line.old.at + 11 ≤ 40 }
    ensures { Wrote (decimal_of n ++ (last ∷ [])) line.old.at line.old.bytes line.new.at line.new.bytes }
{
    line.numeral(10, 1, 10, n);
    line.put(last);
}

// A word's eight digits, and a space.
#[tactic(auto, using(crate::proofs::WroteLaws::numeral_length))]
fn word(line: &mut Line, n: u32)
    requires { line.old.at + 9 ≤ 40 }
    ensures { Wrote (word_text n ++ (32 ∷ [])) line.old.at line.old.bytes line.new.at line.new.bytes }
{
    line.numeral(16, 8, 8, n);
    line.put(b' ');
}

// Puts the line at the start of out, and answers its length, which is at most 40.
// The library's `write!` promises its bytes only where it answers Ok, and `write_one` fixes them on every call.
#[tactic(auto, using(crate::proofs::WroteLaws::ended_length))]
pub fn write(status: u32, shown: u32, known: u32, changed: u32, out: &mut [u8; 40]) -> usize
    ensures { Wrote (answer_text status shown known changed) 0 out.old result out.new }
{
    let mut line = Line { bytes: *out, at: 0 };
    decimal(&mut line, status, b' ');
    word(&mut line, shown);
    word(&mut line, known);
    decimal(&mut line, changed, b'\n');
    *out = line.bytes;
    line.at
}

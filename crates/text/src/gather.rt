// A line's bytes, chunk by chunk.
ghost use Rattle.std.specs.Prelude.{◌≡◌, ◌+◌, ◌-◌, min, length};
ghost use Rattle.std.proofs.lemmas.List.Edits.{sets};
ghost use Rattle.text.specs.Gather.{Gathers};

use crate::Taken;
use crate::find::parted;

// Copies s behind the bytes that are held, as far as the buffer goes, and answers how many are held then.
#[tactic(auto, using(crate::proofs::GatherLaws::copy_over))]
fn copy(s: &[u8], buffer: &mut [u8], held: usize) -> usize
    ensures buffer_after { buffer.new ≡ sets buffer.old held s.now }
    ensures value { result ≡ held + min (length s.now) (length buffer.old - held) }
{
    let from = held.min(buffer.len());
    let n = s.len().min(buffer.len() - from);
    buffer[from..from + n].copy_from_slice(&s[..n]);
    held + n
}

// Takes the chunk's bytes from a place on, up to a newline or its end. Buffer and length stand apart, as gather_one has them; a caller keeps both in one
// struct.
pub fn gather(chunk: &[u8], from: usize, buffer: &mut [u8], held: usize) -> Taken
    ensures { Gathers chunk.now from buffer.old held result buffer.new }
{
    let rest = chunk.get(from..).unwrap_or(&[]);
    match parted(rest, b'\n') {
        Some((line, _)) => Taken {
            held: copy(line, buffer, held),
            next: Some(from + line.len() + 1),
        },
        None => Taken {
            held: copy(rest, buffer, held),
            next: None,
        },
    }
}

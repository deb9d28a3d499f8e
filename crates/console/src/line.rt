// A line of standard input, gathered from chunks.
ghost use Rattle.std.specs.Prelude.{◌<◌, ◌≤◌, IfSome, length};

use text::gather::gather;

// The bytes of a line so far. The buffer has one byte more than a line may have, so that a line too long is seen by its length.
#[derive(Drop)]
pub(crate) struct Line {
    buffer: [u8; 65],
    held: usize,
    ghost within: { held ≤ 65 },
}

impl Line {
    pub(crate) fn new() -> Line {
        Line {
            buffer: [0; 65],
            held: 0,
        }
    }

    pub(crate) fn text(&self) -> &[u8] {
        &self.buffer[..self.held]
    }

    pub(crate) fn clear(&mut self) {
        self.held = 0;
    }

    // Takes a chunk's bytes from a place on: where to go on, once the line is whole.
    pub(crate) fn take(&mut self, chunk: &[u8], from: usize) -> Option<usize>
        ensures after { IfSome result (λ n. from < n) }
        ensures in_bounds { IfSome result (λ n. n ≤ length chunk.now) }
    {
        let taken = gather(chunk, from, &mut self.buffer, self.held);
        self.held = taken.held;
        taken.next
    }
}

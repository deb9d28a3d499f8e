// A picture as a binary PPM file: three bytes a dot, row after row.
ghost use Rattle.std.specs.Prelude.{◌≤◌, length};

use crate::rooms::Panel;
use std::io;
use std::io::Write;
use text::shown::colour;

// How many dots are written at a time, and in how many bytes.
const DOTS: usize = 1024;

const BYTES: usize = 3 * DOTS;

// The first dots, as many as are written at a time, and how many they are. By the index: a chunk of three bytes for each dot asks twice a dot whether there
// is one more.
fn put_dots(picture: &[u32], out: &mut [u8; BYTES]) -> usize
    ensures most { result ≤ 1024 }
    ensures in_bounds { result ≤ length picture.now }
{
    let n = picture.len().min(DOTS);
    for i in 0..n {
        let c = colour(picture[i]);
        out[3 * i] = c.red;
        out[3 * i + 1] = c.green;
        out[3 * i + 2] = c.blue;
    }
    n
}

fn write_dots<W: Write>(to: &mut W, picture: &[u32]) -> io::Result<()> {
    for part in picture.chunks(DOTS) {
        let mut out = [0u8; BYTES];
        let dots = put_dots(part, &mut out);
        to.write_all(&out[..3 * dots])?;
    }
    Ok(())
}

pub(crate) fn write_picture<W: Write>(to: &mut W, panel: Panel, picture: &[u32]) -> io::Result<()> {
    write!(to, "P6\n{} {}\n255\n", panel.width, panel.height)?;
    write_dots(to, picture)
}

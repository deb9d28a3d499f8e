// The programs over a panel of any size: its lines in the trace's form or in words, and its picture as a file.
use crate::complain::complain;
use crate::program::{ROOM, argument, begin, end, has_argument};
use crate::rooms::Panel;
use crate::say::Output;
use crate::session::Form;
use text::Size;
use text::panel::{decimal, size};

const NO_SIZE: &[u8] =
    b"the panel's size is of another form: expected is WIDTHxHEIGHT in decimal digits, as 640x480\n";

const NO_BYTES: &[u8] =
    b"the memory is of another form: expected is a number of bytes in decimal digits, as 65536\n";

// The size and the bytes that the arguments ask for; Err says which is of another form.
fn asked(rt: HostRuntime) -> Result<(Size, u32), &'static [u8]> {
    let size = size(argument(rt, 1, &mut [0u8; ROOM])).ok_or(NO_SIZE)?;
    let bytes = decimal(argument(rt, 2, &mut [0u8; ROOM])).ok_or(NO_BYTES)?;
    Ok((size, bytes))
}

fn start(out: &mut Output, size: Size, bytes: u32, form: Form) {
    match Panel::new(size, bytes) {
        Ok(panel) => panel.show(out, form),
        Err(why) => complain(out.rt, why),
    }
}

fn from_arguments(out: &mut Output, form: Form, usage: &[u8]) {
    match asked(out.rt) {
        Ok((size, bytes)) => start(out, size, bytes, form),
        Err(why) => {
            complain(out.rt, why);
            complain(out.rt, usage);
        }
    }
}

// panel WIDTHxHEIGHT BYTES [PICTURE.ppm]: the trace's lines on such a panel.
pub fn panel(rt: HostRuntime) {
    let usage = b"usage: panel WIDTHxHEIGHT BYTES [PICTURE.ppm] < TRACE\n";
    if begin(rt, 3, usage) {
        let mut out = Output::new(rt);
        from_arguments(&mut out, Form::Trace, usage);
        end(&mut out);
    }
}

// explain [WIDTHxHEIGHT BYTES [PICTURE.ppm]]: the same in words, and looks too. It needs no arguments, and is then on the trace program's panel.
pub fn explain(rt: HostRuntime) {
    let usage = b"usage: explain [WIDTHxHEIGHT BYTES [PICTURE.ppm]] < TRACE\n";
    if begin(rt, 3, usage) {
        let mut out = Output::new(rt);
        if has_argument(rt, 1) {
            from_arguments(&mut out, Form::Words, usage);
        } else {
            let size = Size {
                width: 4,
                height: 1,
            };
            start(&mut out, size, 16, Form::Words);
        }
        end(&mut out);
    }
}

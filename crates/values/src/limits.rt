// The limits of an opening.
use crate::cases::open_on;
use console::say::Output;

// One function for each heading of the output.
pub(crate) fn widths(out: &mut Output) {
    out.print("width\n");
    open_on::<16, 0>(out, 0, 1);
    open_on::<16, 1>(out, 1, 1);
    open_on::<16, 1024>(out, 1024, 1);
    open_on::<16, 1025>(out, 1025, 1);
}

pub(crate) fn heights(out: &mut Output) {
    out.print("height\n");
    open_on::<16, 0>(out, 1, 0);
    open_on::<16, 1>(out, 1, 1);
    open_on::<16, 1024>(out, 1, 1024);
    open_on::<16, 1025>(out, 1, 1025);
}

// The upper limit, 8,388,608 bytes, and 8,388,616 are not run here: a program's arrays lie on its stack, which is commonly of
// 8,388,608 bytes in all. That they are served and refused is proved (open's contract); 65,536 bytes stand for them.
pub(crate) fn memories(out: &mut Output) {
    out.print("memory\n");
    open_on::<0, 4>(out, 4, 1);
    open_on::<8, 4>(out, 4, 1);
    open_on::<12, 4>(out, 4, 1);
    open_on::<65536, 4>(out, 4, 1);
}

// A line for an opening, and one for an access.
use chip::{Access, Kind, Opened};
use console::machine::Told;
use console::say::Output;

pub(crate) fn say_asked(out: &mut Output, width: u32, height: u32, memory: usize, picture: usize) {
    out.print(format_args!("open {width}x{height} {memory} {picture} -> "));
}

pub(crate) fn say_opened(out: &mut Output, o: &Opened) {
    let s = &o.state;
    out.print(format_args!("{} {}x{} {}\n", o.status, s.width, s.height, s.fitted));
}

fn letter(k: Kind) -> char {
    match k {
        Kind::Read => 'r',
        Kind::Write => 'w',
        Kind::Look => 'l',
    }
}

pub(crate) fn say_access(out: &mut Output, a: Access) {
    out.print(format_args!(
        "{} {} {:x} {:x}",
        letter(a.kind),
        a.target,
        a.offset,
        a.enables
    ));
    if a.kind.is_write() {
        out.print(format_args!(" {:08x}", a.word));
    }
    out.print(" -> ");
}

pub(crate) fn say_answer(out: &mut Output, told: Told) {
    out.print(format_args!(
        "{} {:08x} {:08x} {}\n",
        told.status, told.word, told.known, told.changed
    ));
}

// Runs the values of 01, "Values to check", that are not proved as theorems, the limits of an opening, each refusal and looks, on the
// model itself. What it writes is held to the file `stdout`, whose lines were compared with 01 by hand.
//
// An opening's line: panel, bytes of memory, words of picture -> status, and the panel and memory that the state records.
// An access's line: r, w or l, target, offset, enables, for w a word -> status, word, known mask, changed count.
#![tactic(auto)]

mod say; // say.rt: a line for an opening, and one for an access
mod cases; // cases.rt: openings and accesses on lent buffers
mod limits; // limits.rt: width, height and memory
mod refusals; // refusals.rt: each refusal once
mod access; // access.rt: offsets, enables and six-bit red
mod looks; // looks.rt: a look and what follows it

use console::say::Output;

fn all(out: &mut Output) {
    access::offsets(out);
    access::enables(out);
    access::six_bit_red(out);
    limits::widths(out);
    limits::heights(out);
    limits::memories(out);
    refusals::all(out);
    looks::all(out);
}

fn main(rt: HostRuntime) {
    if console::program::begin(rt, 0, b"usage: values\n") {
        let mut out = Output::new(rt);
        all(&mut out);
        console::program::end(&mut out);
    }
}

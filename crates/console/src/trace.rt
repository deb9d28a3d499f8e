// The trace program of 01: a panel of 4 by 1 with 16 zero bytes, lines of standard input, a line for each.
use crate::machine::Machine;
use crate::program::{begin, end};
use crate::say::Output;
use crate::session::{Form, Session};
use model::open::open;

fn on_panel(out: &mut Output) {
    let mut memory = [0u8; 16];
    let mut picture = [0u32; 4];
    let opened = open(4, 1, &mut memory, &mut picture);
    out.print("PERMEDIA2 4x1 16\n");
    let mut machine = Machine {
        state: opened.state,
        memory: &mut memory,
        picture: &mut picture,
    };
    let form = Form::Trace;
    Session { out, form }.run(&mut machine);
}

pub fn trace(rt: HostRuntime) {
    if begin(rt, 0, b"usage: trace < TRACE\n") {
        let mut out = Output::new(rt);
        on_panel(&mut out);
        end(&mut out);
    }
}

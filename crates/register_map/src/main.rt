// The whole register map, from the proved tables: the page docs/REGISTERS.md, and then the table of include/reefstencil.h.
#![tactic(auto)]

mod rows; // rows.rt: one register a row

use console::say::Output;

fn main(rt: HostRuntime) {
    if console::program::begin(rt, 0, b"usage: register_map\n") {
        let mut out = Output::new(rt);
        rows::page(&mut out);
        rows::table(&mut out);
        console::program::end(&mut out);
    }
}

// explain [WIDTHxHEIGHT BYTES [PICTURE.ppm]]: a readable line for each access of a trace.
#![tactic(auto)]

fn main(rt: HostRuntime) {
    console::panel::explain(rt);
}

// panel WIDTHxHEIGHT BYTES [PICTURE.ppm]: the trace program on a panel of any size, and its picture as a file.
#![tactic(auto)]

fn main(rt: HostRuntime) {
    console::panel::panel(rt);
}

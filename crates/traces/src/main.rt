// The trace program on a long random trace of the second program's. A program of its own: a stored output belongs to one.
#![tactic(auto)]

fn main(rt: HostRuntime) {
    console::trace::trace(rt);
}

// The trace program (01, Values to check): accesses from standard input, one a line, and a line for each answer.
#![tactic(auto)]

fn main(rt: HostRuntime) {
    console::trace::trace(rt);
}

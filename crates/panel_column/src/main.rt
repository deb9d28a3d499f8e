// The panel program on a panel of one column. A program of its own: a stored output belongs to one.
#![tactic(auto)]

fn main(rt: HostRuntime) {
    console::panel::panel(rt);
}

// The explain program on a random trace of the second program's, with looks among its lines. A program of its own: a stored output belongs to one.
#![tactic(auto)]

fn main(rt: HostRuntime) {
    console::panel::explain(rt);
}

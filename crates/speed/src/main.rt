// speed [counts]: how long 100,000 writes through an aperture take on a panel of 4 by 1 and on one of 1,024 by 1,024. Each write changes four
// dots in both. With the word `counts` it leaves out the times, which vary, so that what it writes can be compared.
#![tactic(auto)]

ghost use Rattle.std.specs.Prelude.{◌<◌, ◌^◌};

mod panel; // panel.rt: a panel that is written to

use console::clock::microseconds;
use console::complain::complain;
use console::program::{begin, end, has_argument, is_argument};
use console::say::Output;
use panel::{Case, Panel};

// What is said of the writes: how long they took too, or only how many dots changed.
#[derive(Clone, Copy, PartialEq, Eq)]
enum Told {
    Times,
    Counts,
}

fn report(out: &mut Output, told: Told, t: u32, dots: u32) {
    if told == Told::Times {
        out.print(format_args!("{t} microseconds, "));
    }
    out.print(format_args!("{dots} dots changed\n"));
}

fn timed(out: &mut Output, told: Told, panel: Panel, step: u32) -> u32 {
    let before = microseconds(out.rt());
    let dots = panel.writes(step);
    let t = microseconds(out.rt()).wrapping_sub(before);
    report(out, told, t, dots);
    t
}

fn run<const BYTES: usize, const DOTS: usize>(out: &mut Output, told: Told, case: Case) -> u32
    requires bytes_bound { BYTES < 2 ^ 32 }
    requires dots_bound { DOTS < 2 ^ 32 }
{
    let mut memory = [0u8; BYTES];
    let mut picture = [0u32; DOTS];
    out.print(format_args!("{} by {}: ", case.width, case.height));
    let panel = Panel::shown(case, &mut memory, &mut picture);
    timed(out, told, panel, case.step)
}

// Its lower 32 bits.
fn ratio(out: &mut Output, a: u32, b: u32) {
    if let Some(percent) = (u64::from(b) * 100).checked_div(u64::from(a)) {
        out.print(format_args!("ratio in percent: {}\n", percent % 0x100000000));
    }
}

fn measure(out: &mut Output, told: Told) {
    let small = Case {
        width: 4,
        height: 1,
        stride: 1,
        step: 0,
    };
    let large = Case {
        width: 1024,
        height: 1024,
        stride: 128,
        step: 4,
    };
    let a = run::<16, 4>(out, told, small);
    let b = run::<1048576, 1048576>(out, told, large);
    if told == Told::Times {
        ratio(out, a, b);
    }
}

fn main(rt: HostRuntime) {
    let usage = b"usage: speed [counts]\n";
    if !begin(rt, 1, usage) {
        return;
    }
    let mut out = Output::new(rt);
    if !has_argument(rt, 1) {
        measure(&mut out, Told::Times);
    } else if is_argument(rt, 1, b"counts") {
        measure(&mut out, Told::Counts);
    } else {
        complain(rt, usage);
    }
    end(&mut out);
}

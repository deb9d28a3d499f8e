// For the test of the C layout (tests/layout): each struct of include/reefstencil.h is made here from its parts, for C to read by its
// names, and taken apart here into its parts, after C wrote it by its names.
#![tactic(auto)]

ghost use Rattle.std.specs.Prelude.{[], ◌∷◌, ◌≡◌};

use chip::{Dac, ROWS, Reply, State, Wrote};

// ---- made here, read by C

#[unsafe(no_mangle)]
pub extern "C" fn made_reply(status: u32, word: u32, known: u32) -> Reply
    ensures { result ≡ record { status = status; word = word; known = known } }
{
    Reply {
        status,
        word,
        known,
    }
}

#[unsafe(no_mangle)]
pub extern "C" fn made_wrote(status: u32, changed: u32) -> Wrote
    ensures { result ≡ record { status = status; changed = changed } }
{
    Wrote { status, changed }
}

// The parts in the order of the struct: the RAMDAC's six numbers are address to staged_green.
#[unsafe(no_mangle)]
pub extern "C" fn made_state(
    width: u32,
    height: u32,
    fitted: u32,
    once: u32,
    values: &[u32; ROWS],
    knowns: &[u32; ROWS],
    palette: &[u32; 256],
    address: u8,
    known: u8,
    component: u8,
    staged: u8,
    staged_red: u8,
    staged_green: u8,
) -> State
    ensures { result ≡ record { width = width; height = height; fitted = fitted; once = once; values = values.now; knowns = knowns.now; dac = record { address = address; known = known; component = component; staged = staged; red = staged_red; green = staged_green }; palette = palette.now } }
{
    let dac = Dac {
        address,
        known,
        component,
        staged,
        red: staged_red,
        green: staged_green,
    };
    State {
        width,
        height,
        fitted,
        once,
        values: *values,
        knowns: *knowns,
        palette: *palette,
        dac,
    }
}

// ---- written by C, taken apart here. An array in a struct goes by a variable: so the borrow checker asks. One function
// for each array: what C calls is not generic.

#[unsafe(no_mangle)]
pub extern "C" fn parts_of_reply(p: Reply, out: &mut [u32; 3])
    ensures { out.new ≡ p.status ∷ p.word ∷ p.known ∷ [] }
{
    *out = [p.status, p.word, p.known];
}

#[unsafe(no_mangle)]
pub extern "C" fn parts_of_wrote(p: Wrote, out: &mut [u32; 2])
    ensures { out.new ≡ p.status ∷ p.changed ∷ [] }
{
    *out = [p.status, p.changed];
}

#[unsafe(no_mangle)]
pub extern "C" fn sizes_of_state(s: State, out: &mut [u32; 4])
    ensures { out.new ≡ s.width ∷ s.height ∷ s.fitted ∷ s.once ∷ [] }
{
    *out = [s.width, s.height, s.fitted, s.once];
}

#[unsafe(no_mangle)]
pub extern "C" fn values_of_state(s: State, out: &mut [u32; ROWS])
    ensures { out.new ≡ s.values }
{
    let part = s.values;
    *out = part;
}

#[unsafe(no_mangle)]
pub extern "C" fn knowns_of_state(s: State, out: &mut [u32; ROWS])
    ensures { out.new ≡ s.knowns }
{
    let part = s.knowns;
    *out = part;
}

#[unsafe(no_mangle)]
pub extern "C" fn palette_of_state(s: State, out: &mut [u32; 256])
    ensures { out.new ≡ s.palette }
{
    let part = s.palette;
    *out = part;
}

#[unsafe(no_mangle)]
pub extern "C" fn dac_of_state(s: State, out: &mut [u8; 6])
    ensures { out.new ≡ s.dac.address ∷ s.dac.known ∷ s.dac.component ∷ s.dac.staged ∷ s.dac.red ∷ s.dac.green ∷ [] }
{
    let Dac {
        address,
        known,
        component,
        staged,
        red,
        green,
    } = s.dac;
    *out = [address, known, component, staged, red, green];
}

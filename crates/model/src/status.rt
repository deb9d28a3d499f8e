// The refusals of a read, a write and a look after the first, in the order 2 to 7.
#![tactic(auto, unfolding(chip::specs::Port::port_at, chip::specs::Access::is_write, crate::specs::Stages::place_lines, crate::specs::Stages::form_lines, crate::specs::Stages::later_from, crate::specs::Stages::later_at))]

ghost use Rattle.std.specs.Prelude.{ℕ, List, ◌≡◌};
ghost use Rattle.bits.specs.Choose.{pick};
ghost use Rattle.chip.specs.declared.Dac.{Dac};
ghost use Rattle.chip.specs.declared.Place.TheVariants.{Register, Window};
ghost use Rattle.chip.specs.Parts.{made};
ghost use Rattle.chip.specs.Port.{port_at};
ghost use Rattle.chip.specs.Access.{is_write};
ghost use Rattle.chip.specs.Refusal.{first_of};
ghost use Rattle.chip.specs.Status.{status_given};
ghost use Rattle.model.specs.Stages.{lent_ok, form_ok, form_lines, place_lines, later_at};

use chip::{Access, Place, ROWS, Refusal};
use registers::bank::{held, row_reads, row_writes};

// A register has its directions.
fn check_register(a: Access, i: usize) -> Result<(), Refusal>
    ensures { (w h f o : ℕ) (vs ks p : List ℕ) (d : Dac) → status_given result ≡ first_of (place_lines (port_at (made w h f o vs ks p d) a (Register i)) (is_write a)) }
{
    let open = if a.kind.is_write() {
        row_writes(i)
    } else {
        row_reads(i)
    };
    if open {
        Ok(())
    } else {
        Err(Refusal::Direction)
    }
}

// Memory is fitted, and the mode is served.
fn check_window(fitted: u32, values: &[u32; ROWS], a: Access, i: usize) -> Result<(), Refusal>
    ensures { (w h o : ℕ) (ks p : List ℕ) (d : Dac) → status_given result ≡ first_of (place_lines (port_at (made w h fitted o values.now ks p d) a (Window i)) (is_write a)) }
{
    let control = held(values, i);
    if !aperture::reaches_memory(fitted, control, a.offset) {
        return Err(Refusal::Absent);
    }
    if !aperture::mode_served(control) {
        return Err(Refusal::Mode);
    }
    Ok(())
}

// Lines 5, 6 and 7.
#[tactic(auto, using(crate::proofs::TestLaws::open_place, crate::proofs::TestLaws::no_place))]
fn check_place(fitted: u32, values: &[u32; ROWS], a: Access, p: Place) -> Result<(), Refusal>
    ensures { (w h o : ℕ) (ks q : List ℕ) (d : Dac) → status_given result ≡ first_of (place_lines (port_at (made w h fitted o values.now ks q d) a p) (is_write a)) }
{
    match p {
        Place::Register(i) => check_register(a, i),
        Place::Window(i) => check_window(fitted, values, a, i),
        Place::Address | Place::PaletteData | Place::Blank => Ok(()),
        Place::Nowhere => Err(Refusal::Absent),
    }
}

// Line 2: memory in bytes and the picture in words, as lent.
fn check_lent(
    width: u32,
    height: u32,
    fitted: u32,
    memory: u64,
    picture: u64,
) -> Result<(), Refusal>
    ensures { status_given result ≡ pick (lent_ok width height fitted memory picture) 0 2 }
{
    let dots = u64::from(width) * u64::from(height);
    if memory == u64::from(fitted) && picture == dots {
        Ok(())
    } else {
        Err(Refusal::Length)
    }
}

fn form_ok(a: Access) -> bool
    ensures { result ≡ form_ok a }
{
    a.target <= 3 && a.enables <= 15
}

// Lines 3 and 4.
#[tactic(auto, unfolding(crate::specs::Stages::form_lines))]
fn check_form(a: Access) -> Result<(), Refusal>
    ensures { status_given result ≡ first_of (form_lines a) }
{
    if !form_ok(a) {
        return Err(Refusal::Form);
    }
    if a.offset % 4 != 0 {
        return Err(Refusal::Offset);
    }
    Ok(())
}

// The refusals after 1, at the place p.
pub(crate) fn check_access(
    width: u32,
    height: u32,
    fitted: u32,
    values: &[u32; ROWS],
    memory: u64,
    picture: u64,
    a: Access,
    p: Place,
) -> Result<(), Refusal>
    ensures { (o : ℕ) (ks q : List ℕ) (d : Dac) → status_given result ≡ later_at (made width height fitted o values.now ks q d) memory picture a p }
{
    check_lent(width, height, fitted, memory, picture)?;
    check_form(a)?;
    check_place(fitted, values, a, p)
}

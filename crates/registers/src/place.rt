// Where an access leads, from its target, its offset and the RAMDAC's address (01, An access and its answer, RAMDAC).
ghost use Rattle.std.specs.Prelude.{◌≡◌};
ghost use Rattle.chip.specs.Place.{data_place, indexed_place, region_place, header_place, place_at};
ghost use Rattle.registers.specs.Found.{register_place};

use super::indirect::indirect_row;
use super::offsets::{header_row, region_row};
use chip::{APERTURE_ONE, APERTURE_TWO, Dac, HEADER_FIRST, Place};

// While a bit of the address is unknown, palette data and indexed data are nowhere.
#[tactic(auto, unfolding(chip::specs::Place::data_place, chip::specs::Dac::address_known))]
fn data_place(d: Dac) -> Place
    ensures { result ≡ data_place d }
{
    if d.known == 0xFF {
        Place::PaletteData
    } else {
        Place::Nowhere
    }
}

// Indexed data is the register that the map has at the address, if one exists.
#[tactic(auto, unfolding(chip::specs::Place::indexed_place, chip::specs::Dac::address_known, chip::specs::Bank::indirect_entry, crate::specs::Found::indirect_row))]
fn indexed_place(d: Dac) -> Place
    ensures { result ≡ indexed_place d }
{
    match indirect_row(d.address) {
        Some(i) if d.known == 0xFF => Place::Register(i),
        _ => Place::Nowhere,
    }
}

#[tactic(auto, unfolding(crate::specs::Found::register_place, crate::specs::Found::region_row, chip::specs::Bank::region_at))]
fn register_place(o: u32) -> Place
    ensures { result ≡ register_place o }
{
    match region_row(o) {
        Some(i) => Place::Register(i),
        None => Place::Nowhere,
    }
}

// Region 0: the RAMDAC's ports, else a register of the table, else nowhere.
#[tactic(auto, unfolding(chip::specs::Place::region_place, crate::specs::Found::register_place))]
fn region_place(d: Dac, o: u32) -> Place
    ensures { result ≡ region_place d o }
{
    match o {
        0x4000 | 0x4018 => Place::Address,
        0x4008 => data_place(d),
        0x4050 => indexed_place(d),
        _ => register_place(o),
    }
}

// The header: 0 to FCh, a register of the table or none.
#[tactic(auto, using(crate::proofs::Searches::header_found, crate::proofs::Searches::header_within), unfolding(chip::specs::Place::header_place, crate::specs::Found::header_row))]
fn header_place(o: u32) -> Place
    ensures { result ≡ header_place o }
{
    if o > 0xFC {
        return Place::Nowhere;
    }
    match header_row(o) {
        Some(i) => Place::Register(HEADER_FIRST + i),
        None => Place::Blank,
    }
}

#[tactic(auto, unfolding(chip::specs::Place::place_at))]
pub fn place_of(d: Dac, target: u32, offset: u32) -> Place
    ensures { result ≡ place_at d target offset }
{
    match target {
        0 => region_place(d, offset),
        1 => Place::Window(APERTURE_ONE),
        2 => Place::Window(APERTURE_TWO),
        3 => header_place(offset),
        _ => Place::Nowhere,
    }
}

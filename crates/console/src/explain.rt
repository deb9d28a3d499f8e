// One readable line for an access and its answer. Its words are functions and no Display: the types are chip's, and each program has its own words.
use crate::machine::Told;
use crate::names::say_row;
use crate::say::Output;
use chip::{APERTURE_ONE, Access, Dac, INDIRECT_FIRST, Kind, Place, Refusal};
use registers::place::place_of;
use text::shown::word;

// By its number, as Dac has it.
fn component(n: u8) -> &'static str {
    match n {
        0 => "red",
        1 => "green",
        _ => "blue",
    }
}

// The palette's data go to an entry and a component, where the address is known.
fn say_palette(out: &mut Output, dac: Dac) {
    out.print("RDPaletteData");
    if dac.known == 255 {
        out.print(format_args!(" entry {:x} {}", dac.address, component(dac.component)));
    }
}

// Indexed data go to the register at the address, where that is known.
fn say_indexed(out: &mut Output, dac: Dac) {
    out.print("RDIndexedData");
    if dac.known == 255 {
        out.print(format_args!(" index {:x}", dac.address));
    }
}

fn say_register(out: &mut Output, dac: Dac, i: usize) {
    if INDIRECT_FIRST <= i {
        say_indexed(out, dac);
        out.print(" ");
    }
    say_row(out, i);
}

fn say_address(out: &mut Output, offset: u32) {
    out.print(match offset {
        0x4000 => "RDPaletteWriteAddress",
        _ => "RDPaletteReadAddress",
    });
}

fn say_window(out: &mut Output, i: usize, offset: u32) {
    let aperture = if i == APERTURE_ONE { "one" } else { "two" };
    out.print(format_args!("aperture {aperture} byte {offset:x}"));
}

fn say_offset(out: &mut Output, a: Access) {
    out.print(format_args!("target {} offset {:x}", a.target, a.offset));
}

// No register is there. The RAMDAC's data are named all the same: they are nowhere while the address is unknown, and indexed data
// at an index without a register.
fn say_nowhere(out: &mut Output, dac: Dac, a: Access) {
    match (a.target, a.offset) {
        (0, 0x4008) => say_palette(out, dac),
        (0, 0x4050) => say_indexed(out, dac),
        _ => say_offset(out, a),
    }
}

// What an access reaches, by the manual's name.
fn say_place(out: &mut Output, dac: Dac, a: Access) {
    match place_of(dac, a.target, a.offset) {
        Place::Register(i) => say_register(out, dac, i),
        Place::Address => say_address(out, a.offset),
        Place::PaletteData => say_palette(out, dac),
        Place::Window(i) => say_window(out, i, a.offset),
        Place::Blank => say_offset(out, a),
        Place::Nowhere => say_nowhere(out, dac, a),
    }
}

// 01's table of refusals.
fn reason(why: Refusal) -> &'static str {
    match why {
        Refusal::NotState => "not a state",
        Refusal::Length => "a lent buffer has the wrong length",
        Refusal::Form => "no such target, or enables above 15",
        Refusal::Offset => "the offset is no multiple of 4",
        Refusal::Absent => "nothing is there",
        Refusal::Direction => "not readable, or not writable",
        Refusal::Mode => "the aperture's mode is not served",
        // Openings are refused as these, and accesses never.
        Refusal::Panel => "no such panel",
        Refusal::Memory => "no such memory",
    }
}

fn kind(k: Kind) -> &'static str {
    match k {
        Kind::Read => "read",
        Kind::Write => "write",
        Kind::Look => "look",
    }
}

// What is asked for, with the lanes that are enabled where not all four are.
fn say_asked(out: &mut Output, dac: Dac, a: Access) {
    out.print(format_args!("{:5} ", kind(a.kind)));
    say_place(out, dac, a);
    if a.kind.is_write() {
        out.print(format_args!(" {:08x}", a.word));
    }
    if a.enables != 15 {
        out.print(format_args!(" (enables {:x})", a.enables));
    }
}

// A read's or a look's word with ? for each digit that has an unknown bit.
fn say_read(out: &mut Output, told: Told) {
    out.print(" = ");
    out.say(&word(told.word, told.known));
    if told.known == 0 {
        out.print(", nothing of it is known");
    }
}

fn say_changed(out: &mut Output, changed: u32) {
    match changed {
        0 => out.print("\n"),
        1 => out.print(", 1 dot changed\n"),
        _ => out.print(format_args!(", {changed} dots changed\n")),
    }
}

pub(crate) fn say_access(out: &mut Output, dac: Dac, a: Access, told: Told) {
    say_asked(out, dac, a);
    if let Ok(why) = Refusal::try_from(told.status) {
        out.print(format_args!(": refused as {}, {}\n", told.status, reason(why)));
        return;
    }
    if !a.kind.is_write() {
        say_read(out, told);
    }
    say_changed(out, told.changed);
}

// One register a row, in the order of the offsets: on the page, and in the table of the C header.
ghost use Rattle.std.specs.Prelude.{◌≤◌};

use chip::{Dac, Place, REGION_ROWS, ROWS, SUBSYSTEM};
use console::names::say_row;
use console::say::Output;
use registers::bank::{
    bank_knowns, bank_resets, held, row_reads, row_writable, row_writes, stored_bits,
};
use registers::indirect::{index_exists, index_reads, index_reset, index_writable};
use registers::place::place_of;

// The offset of RDIndexedData.
const INDEXED: u32 = 0x4050;

// An index that has a register.
const PRESENT: u8 = 0x06;

// Region 0 and the configuration header, in words of four bytes.
const REGION_WORDS: u32 = 0x4000;

const HEADER_WORDS: u32 = 64;

// Where a register is, as the table of the C header numbers it.
#[derive(Clone, Copy)]
enum Space {
    Region = 0,
    Header = 3,
    Index = 4,
}

// At each offset of so many words ..
fn at_offsets<F: Fn(&mut Output, u32)>(out: &mut Output, words: u32, row: F)
    requires callable { F.IsAlwaysCallable row }
    requires bound { words ≤ 16384 }
{
    for k in 0..words {
        row(out, 4 * k);
    }
}

// .. and at each index.
fn at_indices<F: Fn(&mut Output, u8)>(out: &mut Output, row: F)
    requires { F.IsAlwaysCallable row }
{
    for i in 0..=u8::MAX {
        row(out, i);
    }
}

pub(crate) fn page(out: &mut Output) {
    out.print(
        "\n## Region 0\n\n| Register | Offset | Directions | Writable | Reset | Known at reset |\n|---|---|---|---|---|---|\n",
    );
    at_offsets(out, REGION_WORDS, region_row);
    out.print(
        "\n## Configuration header\n\n| Registers | Offset | Directions | Writable | Cleared by one | Reset | Known |\n|---|---|---|---|---|---|---|\n",
    );
    at_offsets(out, HEADER_WORDS, header_row);
    out.print(
        "\n## Indirect registers of the RAMDAC\n\n| Register | Index | Directions | Writable | Reset | Known |\n|---|---|---|---|---|---|\n",
    );
    at_indices(out, indirect_row);
}

pub(crate) fn table(out: &mut Output) {
    out.print("#define PM_REGISTERS(X) \\\n");
    at_offsets(out, REGION_WORDS, region_line);
    at_offsets(out, HEADER_WORDS, header_line);
    at_indices(out, indirect_line);
}

// A row's first cells: the register, its offset or index, and its directions.
fn begin_row(out: &mut Output, i: usize, o: u32, reads: bool, writes: bool) {
    let directions = match (reads, writes) {
        (true, true) => "read, write",
        (true, false) => "read",
        (false, _) => "write",
    };
    out.print("| ");
    say_row(out, i);
    out.print(format_args!(" | {o:x} | {directions}"));
}

// A row's last cells: the reset, and the bits of it that are known.
fn end_row(out: &mut Output, i: usize) {
    let resets = bank_resets();
    let knowns = bank_knowns();
    out.print(format_args!(" | {:08x} | {:08x} |\n", held(&resets, i), held(&knowns, i)));
}

// The RAMDAC with its address at an index.
fn aimed(index: u8) -> Dac {
    Dac {
        address: index,
        known: 0xFF,
        ..Dac::default()
    }
}

// What is at an offset of region 0, at one of the header, and at an index.
fn at_offset(o: u32) -> Place {
    place_of(aimed(PRESENT), 0, o)
}

fn at_header(o: u32) -> Place {
    place_of(aimed(PRESENT), 3, o)
}

fn at_index(i: u8) -> Place {
    place_of(aimed(i), 0, INDEXED)
}

fn region_row(out: &mut Output, o: u32) {
    match at_offset(o) {
        Place::Register(i) if i < REGION_ROWS => {
            begin_row(out, i, o, row_reads(i), row_writes(i));
            out.print(format_args!(" | {:08x}", row_writable(i)));
            end_row(out, i);
        }
        // The port to the indirect ones.
        Place::Register(_) => out.print(format_args!(
            "| RDIndexedData | {o:x} | read, write | the indirect register at the address | | |\n"
        )),
        Place::Address => {
            let way = if o == 0x4000 { "Write" } else { "Read" };
            out.print(format_args!(
                "| RDPalette{way}Address | {o:x} | read, write | the RAMDAC's one address, bits 0 to 7 | 00000000 | 00000000 |\n"
            ));
        }
        Place::PaletteData => out.print(format_args!(
            "| RDPaletteData | {o:x} | read, write | the entry at the address, component by component | never stored | |\n"
        )),
        _ => {}
    }
}

fn header_row(out: &mut Output, o: u32) {
    if let Place::Register(i) = at_header(o) {
        begin_row(out, i, o, row_reads(i), row_writes(i));
        writable_cell(out, i);
        cleared_cell(out, i);
        end_row(out, i);
    }
}

// The bits that take a write's; the subsystem numbers take a write once.
fn writable_cell(out: &mut Output, i: usize) {
    if i == SUBSYSTEM {
        out.print(" | once");
    } else {
        out.print(format_args!(" | {:08x}", row_writable(i)));
    }
}

// The bits that are stored where a write has a one, and not where it has a zero.
fn cleared_cell(out: &mut Output, i: usize) {
    let ones = stored_bits(0, i, 15, 0xFFFFFFFF);
    let zeros = stored_bits(0, i, 15, 0);
    out.print(format_args!(" | {:08x}", ones & !zeros));
}

fn indirect_row(out: &mut Output, i: u8) {
    if index_exists(i)
        && let Place::Register(row) = at_index(i)
    {
        let knowns = bank_knowns();
        begin_row(out, row, u32::from(i), index_reads(i), row_writes(row));
        out.print(format_args!(
            " | {:x} | {:x} | {:x} |\n",
            index_writable(i),
            index_reset(i),
            held(&knowns, row)
        ));
    }
}

// A line of the header's table: the row, where the register is, its offset or index, and its name.
fn line(out: &mut Output, i: usize, space: Space, o: u32) {
    if i < ROWS {
        out.print(format_args!("    X({i}, {}, 0x{o:x}, \"", space as u32));
        say_row(out, i);
        out.print(if i == ROWS - 1 { "\")\n" } else { "\") \\\n" });
    }
}

fn region_line(out: &mut Output, o: u32) {
    if let Place::Register(i) = at_offset(o)
        && i < REGION_ROWS
    {
        line(out, i, Space::Region, o);
    }
}

fn header_line(out: &mut Output, o: u32) {
    if let Place::Register(i) = at_header(o) {
        line(out, i, Space::Header, o);
    }
}

fn indirect_line(out: &mut Output, i: u8) {
    if let Place::Register(row) = at_index(i) {
        line(out, row, Space::Index, u32::from(i));
    }
}

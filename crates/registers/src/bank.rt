// The bank: the columns of its rows, region 0's first, then the header's, then the RAMDAC's indirect ones, and what a write of a
// register stores (000, chapter 3, 2.14 and table 5.2; 01, Region 0, RAMDAC, Configuration header).
ghost use Rattle.std.proofs.Math.Option;
ghost use Rattle.std.specs.Prelude.{◌≡◌, get_or};
ghost use Rattle.chip.specs.Bank.{bank_row, bank_resets, bank_knowns};
ghost use Rattle.chip.specs.Register.{brought_word};
ghost use Rattle.chip.specs.Subsystem.{stored_bits, fixed_by};
ghost use Rattle.chip.specs.Sound.{bank_sound};
ghost use Rattle.registers.specs.Columns.{in_set};
ghost use Rattle.registers.specs.Written.{RowWritten, BankReset};

use super::subsystem::{half_bits, once_after, once_moved};
use super::table::columns_sound;
use bits::{bit_of, bits_inside, bits_joined, bits_merged, bits_outside, lanes_of, put_at};
use chip::{Access, COMMAND, ROWS, SUBSYSTEM};

// The directions, a bit for each row: the rows that are read, and the rows that are written. Sets of three words, and no columns of bools: a constant
// table is built on the stack at each use (docs/PERFORMANCE.md).
const READS: [u32; 3] = [0xFFFFFFFF, 0xFFFFFFF, 0x7E20];

const WRITES: [u32; 3] = [0xFFFF3FFF, 0xFFFFFFFF, 0x7FFF];

// A column for each number of a row, not a row for each register: bank_resets, bank_knowns and reset_bank give whole columns, as a state has them.

// The bits that take a write's. The subsystem numbers have a rule of their own.
const WRITABLE: [u32; ROWS] = [
    0x3FB, // ApertureOne
    0x3FB, // ApertureTwo
    0xFFFFFFFF, // ByDMAAddress
    0xFFFFFFFF, // ByDMAStride
    0xFFFFFF, // ByDMAMemAddr
    0xFFF0FFF, // ByDMASize
    0xFFFFFFFF, // ByDMAByteMask
    0x3FFFFFFF, // ByDMAControl
    0, // ByDMAComplete
    0, // Reboot
    0x10, // MemControl
    0x3FF, // BootAddress
    0xFFFFE7FF, // MemConfig
    0xFFFFFFFF, // BypassWriteMask
    0, // FramebufferWriteMask
    0, // Count
    0xFFFFF, // ScreenBase
    0xFFFFF, // ScreenStride
    0x7FF, // HTotal
    0x7FF, // HgEnd
    0x7FF, // HbEnd
    0x7FF, // HsStart
    0x7FF, // HsEnd
    0x7FF, // VTotal
    0x7FF, // VbEnd
    0x7FF, // VsStart
    0x7FF, // VsEnd
    0x11E7F, // VideoControl
    0x7FF, // InterruptLine
    0xE30C, // DisplayData
    0, // LineCount
    0x1F1F, // FifoControl
    0xFFFFF, // ScreenBaseRight
    0xFF, // RDPixelMask
    0xFF, // RDCursorXLow
    0xFF, // RDCursorXHigh
    0xFF, // RDCursorYLow
    0xFF, // RDCursorYHigh
    0, // CFGVendorId, CFGDeviceId
    6, // CFGCommand, CFGStatus
    0, // CFGRevisionId, CFGClassCode
    0xFF00, // CFGCacheLine, CFGLatTimer, CFGHeaderType, CFGBist
    0xFFFE0000, // CFGBaseAddr0
    0xFF800000, // CFGBaseAddr1
    0xFF800000, // CFGBaseAddr2
    0, // CFGCardBus
    0, // CFGSubsystemVendorId, CFGSubsystemId
    0xFFFF0001, // CFGRomAddr
    0, // CFGCapPtr
    0xFF, // CFGIntLine, CFGIntPin, CFGMinGrant, CFGMaxLat
    0, // CFGCapID, CFGNextPtr, CFGAGPRev
    0, // CFGAGPStatus
    0xFF000303, // CFGAGPCommand
    0xE07FFFFF, // CFGIndirectAddress
    0xFFFFFFFF, // CFGIndirectData
    0x7F, // RDCursorControl
    0xBF, // RDColorMode
    7, // RDModeControl
    0xFF, // RDPalettePage
    0x3F, // RDMiscControl
    0xFF, // RDPixelClockA1
    0xFF, // RDPixelClockA2
    0xB, // RDPixelClockA3
    0xFF, // RDPixelClockB1
    0xFF, // RDPixelClockB2
    0xB, // RDPixelClockB3
    0xFF, // RDPixelClockC1
    0xFF, // RDPixelClockC2
    0xB, // RDPixelClockC3
    0, // RDPixelClockStatus
    0xFF, // RDMemoryClock1
    0xFF, // RDMemoryClock2
    3, // RDMemoryClock3
    0, // RDMemoryClockStatus
    0x1F, // RDColorKeyControl
    0xFF, // RDOverlayKey
    0xFF, // RDRedKey
    0xFF, // RDGreenKey
    0xFF, // RDBlueKey
];

// The bits that a write may change: those that take its bits, and two status bits that a write of one clears. The subsystem numbers have a rule of their own.
// A table of its own beside WRITABLE: a constant that is computed from another is not supported yet, and bank_sound reads whole columns.
const MAY: [u32; ROWS] = [
    0x3FB, // ApertureOne
    0x3FB, // ApertureTwo
    0xFFFFFFFF, // ByDMAAddress
    0xFFFFFFFF, // ByDMAStride
    0xFFFFFF, // ByDMAMemAddr
    0xFFF0FFF, // ByDMASize
    0xFFFFFFFF, // ByDMAByteMask
    0x3FFFFFFF, // ByDMAControl
    0, // ByDMAComplete
    0, // Reboot
    0x10, // MemControl
    0x3FF, // BootAddress
    0xFFFFE7FF, // MemConfig
    0xFFFFFFFF, // BypassWriteMask
    0, // FramebufferWriteMask
    0, // Count
    0xFFFFF, // ScreenBase
    0xFFFFF, // ScreenStride
    0x7FF, // HTotal
    0x7FF, // HgEnd
    0x7FF, // HbEnd
    0x7FF, // HsStart
    0x7FF, // HsEnd
    0x7FF, // VTotal
    0x7FF, // VbEnd
    0x7FF, // VsStart
    0x7FF, // VsEnd
    0x11E7F, // VideoControl
    0x7FF, // InterruptLine
    0xE30C, // DisplayData
    0, // LineCount
    0x1F1F, // FifoControl
    0xFFFFF, // ScreenBaseRight
    0xFF, // RDPixelMask
    0xFF, // RDCursorXLow
    0xFF, // RDCursorXHigh
    0xFF, // RDCursorYLow
    0xFF, // RDCursorYHigh
    0, // CFGVendorId, CFGDeviceId
    0x30000006, // CFGCommand, CFGStatus
    0, // CFGRevisionId, CFGClassCode
    0xFF00, // CFGCacheLine, CFGLatTimer, CFGHeaderType, CFGBist
    0xFFFE0000, // CFGBaseAddr0
    0xFF800000, // CFGBaseAddr1
    0xFF800000, // CFGBaseAddr2
    0, // CFGCardBus
    0, // CFGSubsystemVendorId, CFGSubsystemId
    0xFFFF0001, // CFGRomAddr
    0, // CFGCapPtr
    0xFF, // CFGIntLine, CFGIntPin, CFGMinGrant, CFGMaxLat
    0, // CFGCapID, CFGNextPtr, CFGAGPRev
    0, // CFGAGPStatus
    0xFF000303, // CFGAGPCommand
    0xE07FFFFF, // CFGIndirectAddress
    0xFFFFFFFF, // CFGIndirectData
    0x7F, // RDCursorControl
    0xBF, // RDColorMode
    7, // RDModeControl
    0xFF, // RDPalettePage
    0x3F, // RDMiscControl
    0xFF, // RDPixelClockA1
    0xFF, // RDPixelClockA2
    0xB, // RDPixelClockA3
    0xFF, // RDPixelClockB1
    0xFF, // RDPixelClockB2
    0xB, // RDPixelClockB3
    0xFF, // RDPixelClockC1
    0xFF, // RDPixelClockC2
    0xB, // RDPixelClockC3
    0, // RDPixelClockStatus
    0xFF, // RDMemoryClock1
    0xFF, // RDMemoryClock2
    3, // RDMemoryClock3
    0, // RDMemoryClockStatus
    0x1F, // RDColorKeyControl
    0xFF, // RDOverlayKey
    0xFF, // RDRedKey
    0xFF, // RDGreenKey
    0xFF, // RDBlueKey
];

// The values at reset.
const RESETS: [u32; ROWS] = [
    0, // ApertureOne
    0, // ApertureTwo
    0, // ByDMAAddress
    0, // ByDMAStride
    0, // ByDMAMemAddr
    0, // ByDMASize
    0, // ByDMAByteMask
    0, // ByDMAControl
    0, // ByDMAComplete
    0, // Reboot
    0, // MemControl
    0x31, // BootAddress
    0x259FFFFF, // MemConfig
    0, // BypassWriteMask
    0, // FramebufferWriteMask
    0, // Count
    0, // ScreenBase
    0, // ScreenStride
    0, // HTotal
    0, // HgEnd
    0, // HbEnd
    0, // HsStart
    0, // HsEnd
    0, // VTotal
    0, // VbEnd
    0, // VsStart
    0, // VsEnd
    0, // VideoControl
    0, // InterruptLine
    0, // DisplayData
    0, // LineCount
    0, // FifoControl
    0, // ScreenBaseRight
    0xFF, // RDPixelMask
    0, // RDCursorXLow
    0, // RDCursorXHigh
    0, // RDCursorYLow
    0, // RDCursorYHigh
    0x73D3D, // CFGVendorId, CFGDeviceId
    0x2800000, // CFGCommand, CFGStatus
    0x3800001, // CFGRevisionId, CFGClassCode
    0, // CFGCacheLine, CFGLatTimer, CFGHeaderType, CFGBist
    0, // CFGBaseAddr0
    0, // CFGBaseAddr1
    0, // CFGBaseAddr2
    0, // CFGCardBus
    0x73D3D, // CFGSubsystemVendorId, CFGSubsystemId
    0, // CFGRomAddr
    0, // CFGCapPtr
    0x100, // CFGIntLine, CFGIntPin, CFGMinGrant, CFGMaxLat
    0, // CFGCapID, CFGNextPtr, CFGAGPRev
    0, // CFGAGPStatus
    0, // CFGAGPCommand
    0, // CFGIndirectAddress
    0, // CFGIndirectData
    0, // RDCursorControl
    0, // RDColorMode
    0, // RDModeControl
    0, // RDPalettePage
    0, // RDMiscControl
    0x1C, // RDPixelClockA1
    2, // RDPixelClockA2
    0xB, // RDPixelClockA3
    0x10, // RDPixelClockB1
    2, // RDPixelClockB2
    0xB, // RDPixelClockB3
    0, // RDPixelClockC1
    0, // RDPixelClockC2
    0, // RDPixelClockC3
    0, // RDPixelClockStatus
    0x1C, // RDMemoryClock1
    2, // RDMemoryClock2
    2, // RDMemoryClock3
    0, // RDMemoryClockStatus
    0, // RDColorKeyControl
    0, // RDOverlayKey
    0, // RDRedKey
    0, // RDGreenKey
    0, // RDBlueKey
];

// The bits that are known at reset.
const KNOWNS: [u32; ROWS] = [
    0xFFFFFFFF, // ApertureOne
    0xFFFFFFFF, // ApertureTwo
    0xFFFFFFFF, // ByDMAAddress
    0xFFFFFFFF, // ByDMAStride
    0xFFFFFFFF, // ByDMAMemAddr
    0xFFFFFFFF, // ByDMASize
    0, // ByDMAByteMask
    0xFFFFFFFF, // ByDMAControl
    0xFFFFFFFE, // ByDMAComplete
    0xFFFFFFFF, // Reboot
    0xFFFFFFFF, // MemControl
    0xFFFFFFFF, // BootAddress
    0xFFFFFFFF, // MemConfig
    0, // BypassWriteMask
    0, // FramebufferWriteMask
    0, // Count
    0xFFF00000, // ScreenBase
    0xFFF00000, // ScreenStride
    0xFFFFF800, // HTotal
    0xFFFFF800, // HgEnd
    0xFFFFF800, // HbEnd
    0xFFFFF800, // HsStart
    0xFFFFF800, // HsEnd
    0xFFFFF800, // VTotal
    0xFFFFF800, // VbEnd
    0xFFFFF800, // VsStart
    0xFFFFF800, // VsEnd
    0xFFFE0000, // VideoControl
    0xFFFFF800, // InterruptLine
    0xFFFFE30C, // DisplayData
    0xFFFFF800, // LineCount
    0xFFFEE0E0, // FifoControl
    0xFFF00000, // ScreenBaseRight
    0xFF, // RDPixelMask
    0, // RDCursorXLow
    0, // RDCursorXHigh
    0, // RDCursorYLow
    0, // RDCursorYHigh
    0xFFFFFFFF, // CFGVendorId, CFGDeviceId
    0xFFFFFFFF, // CFGCommand, CFGStatus
    0xFFFFFFFF, // CFGRevisionId, CFGClassCode
    0xFFFFFFFF, // CFGCacheLine, CFGLatTimer, CFGHeaderType, CFGBist
    0xFFFFFFFF, // CFGBaseAddr0
    0xFFFFFFFF, // CFGBaseAddr1
    0xFFFFFFFF, // CFGBaseAddr2
    0xFFFFFFFF, // CFGCardBus
    0xFFFFFFFF, // CFGSubsystemVendorId, CFGSubsystemId
    0xFFFFFFFF, // CFGRomAddr
    0xFFFFFFBF, // CFGCapPtr
    0x3F3FFFFF, // CFGIntLine, CFGIntPin, CFGMinGrant, CFGMaxLat
    0xFFEFFFFD, // CFGCapID, CFGNextPtr, CFGAGPRev
    0xE0FFFDFE, // CFGAGPStatus
    0xFFFFFFFF, // CFGAGPCommand
    0xFFFFFFFF, // CFGIndirectAddress
    0xFFFFFFFF, // CFGIndirectData
    0xFF, // RDCursorControl
    0xFF, // RDColorMode
    0xFF, // RDModeControl
    0xFF, // RDPalettePage
    0xFF, // RDMiscControl
    0xFF, // RDPixelClockA1
    0xFF, // RDPixelClockA2
    0xFF, // RDPixelClockA3
    0xFF, // RDPixelClockB1
    0xFF, // RDPixelClockB2
    0xFF, // RDPixelClockB3
    0xFF, // RDPixelClockC1
    0xFF, // RDPixelClockC2
    0xFF, // RDPixelClockC3
    0, // RDPixelClockStatus
    0xFF, // RDMemoryClock1
    0xFF, // RDMemoryClock2
    0xFF, // RDMemoryClock3
    0, // RDMemoryClockStatus
    0xFF, // RDColorKeyControl
    0xFF, // RDOverlayKey
    0xFF, // RDRedKey
    0xFF, // RDGreenKey
    0xFF, // RDBlueKey
];

// Whether a set of rows has row i.
#[tactic(auto, unfolding(crate::specs::Columns::in_set))]
fn in_set(set: &[u32; 3], i: usize) -> bool
    ensures { result ≡ in_set set.now i }
{
    bit_of((i % 32) as u32, set.get(i / 32).copied().unwrap_or(0))
}

// Whether a register is read, and whether it is written; neither past the bank's end.
#[tactic(auto, using(crate::proofs::Rows::reads_at))]
pub fn row_reads(i: usize) -> bool
    ensures { result ≡ (bank_row i).reads }
{
    in_set(&READS, i)
}

#[tactic(auto, using(crate::proofs::Rows::writes_at))]
pub fn row_writes(i: usize) -> bool
    ensures { result ≡ (bank_row i).writes }
{
    in_set(&WRITES, i)
}

#[tactic(auto, using(crate::proofs::Rows::writable_at), unfolding(chip::specs::Bank::bank_rows, chip::specs::Region::region_rows, chip::specs::Header::header_rows, chip::specs::Indirect::indirect_rows))]
pub fn row_writable(i: usize) -> u32
    ensures { result ≡ (bank_row i).writable }
{
    held(&WRITABLE, i)
}

// The bits that a write of one clears: two of CFGStatus.
#[tactic(auto, using(crate::proofs::Rows::clears_at))]
fn row_clears(i: usize) -> u32
    ensures { result ≡ (bank_row i).clears }
{
    if i == COMMAND { 0x30000000 } else { 0 }
}

// The bits that a write of word with enables e stores.
#[tactic(auto, unfolding(chip::specs::Subsystem::stored_bits, chip::specs::Register::moved_bits))]
pub fn stored_bits(once: u32, i: usize, e: u32, word: u32) -> u32
    ensures { result ≡ stored_bits once i e word }
{
    if i == SUBSYSTEM {
        once_moved(once, e)
    } else {
        let may = bits_joined(row_writable(i), bits_inside(row_clears(i), word));
        bits_inside(lanes_of(e), may)
    }
}

// What it stores there: zero in the bits that are cleared by one.
#[tactic(auto, unfolding(chip::specs::Register::brought_word))]
pub fn brought_word(i: usize, word: u32) -> u32
    ensures { result ≡ brought_word (bank_row i) word }
{
    bits_outside(word, row_clears(i))
}

// The subsystem numbers that are fixed after it.
#[tactic(auto, unfolding(chip::specs::Subsystem::fixed_by))]
pub fn fixed_after(once: u32, i: usize, e: u32) -> u32
    ensures { result ≡ Option.get_or (fixed_by once i e) once }
{
    if i == SUBSYSTEM {
        once_after(once, e)
    } else {
        once
    }
}

// No register has a fault. Those of the subsystem numbers that are fixed may differ from their reset.
pub fn bank_sound(once: u32, values: &[u32; ROWS], knowns: &[u32; ROWS]) -> bool
    ensures { result ≡ bank_sound once values.now knowns.now }
{
    columns_sound(
        values,
        knowns,
        &MAY,
        &RESETS,
        &KNOWNS,
        SUBSYSTEM,
        half_bits(once),
    )
}

#[tactic(auto, unfolding(chip::proofs::Computed::computed))]
pub fn bank_resets() -> [u32; ROWS]
    ensures { result ≡ bank_resets }
{
    RESETS
}

#[tactic(auto, unfolding(chip::proofs::Computed::computed))]
pub fn bank_knowns() -> [u32; ROWS]
    ensures { result ≡ bank_knowns }
{
    KNOWNS
}

// What a column of the bank has for a register; zero past its end.
pub fn held(column: &[u32; ROWS], i: usize) -> u32
    ensures { result ≡ get_or column.now i 0 }
{
    column.get(i).copied().unwrap_or(0)
}

// A write of register i, in place: these bits of it take the word's, and become known. Past the bank's end nothing is stored. The parts are lent one by one,
// as the C interface lends them (lent::write).
pub fn write_row(
    once: &mut u32,
    values: &mut [u32; ROWS],
    knowns: &mut [u32; ROWS],
    i: usize,
    a: Access,
)
    ensures { RowWritten once.old values.old knowns.old i a once.new values.new knowns.new }
{
    let o = *once;
    let bits = stored_bits(o, i, a.enables, a.word);
    let word = brought_word(i, a.word);
    let v = bits_merged(held(values, i), word, bits);
    let k = bits_joined(held(knowns, i), bits);
    put_at(values, i, v);
    put_at(knowns, i, k);
    *once = fixed_after(o, i, a.enables);
}

// The bank at reset.
#[tactic(auto, unfolding(chip::proofs::Computed::computed))]
pub fn reset_bank(values: &mut [u32; ROWS], knowns: &mut [u32; ROWS])
    ensures { BankReset values.new knowns.new }
{
    *values = RESETS;
    *knowns = KNOWNS;
}

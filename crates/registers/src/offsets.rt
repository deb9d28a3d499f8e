// Where the registers of region 0 and of the configuration header are: their offsets in the order of their rows, and the row of an
// offset (000, chapter 3 and 2.14; 01, Region 0, Configuration header).
ghost use Rattle.std.specs.Prelude.{◌≡◌};
ghost use Rattle.chip.specs.Bank.{region_at, header_at};
ghost use Rattle.registers.specs.Found.{region_row, header_row};

use super::table::row_with;
use chip::{HEADER_FIRST, HEADER_ROWS, INDIRECT_FIRST, REGION_ROWS};

const REGION_OFFSETS: [u32; REGION_ROWS] = [
    0x50, // ApertureOne
    0x58, // ApertureTwo
    0xA0, // ByDMAAddress
    0xB8, // ByDMAStride
    0xC0, // ByDMAMemAddr
    0xC8, // ByDMASize
    0xD0, // ByDMAByteMask
    0xD8, // ByDMAControl
    0xE8, // ByDMAComplete
    0x1000, // Reboot
    0x1040, // MemControl
    0x1080, // BootAddress
    0x10C0, // MemConfig
    0x1100, // BypassWriteMask
    0x1140, // FramebufferWriteMask
    0x1180, // Count
    0x3000, // ScreenBase
    0x3008, // ScreenStride
    0x3010, // HTotal
    0x3018, // HgEnd
    0x3020, // HbEnd
    0x3028, // HsStart
    0x3030, // HsEnd
    0x3038, // VTotal
    0x3040, // VbEnd
    0x3048, // VsStart
    0x3050, // VsEnd
    0x3058, // VideoControl
    0x3060, // InterruptLine
    0x3068, // DisplayData
    0x3070, // LineCount
    0x3078, // FifoControl
    0x3080, // ScreenBaseRight
    0x4010, // RDPixelMask
    0x4060, // RDCursorXLow
    0x4068, // RDCursorXHigh
    0x4070, // RDCursorYLow
    0x4078, // RDCursorYHigh
];

const HEADER_OFFSETS: [u32; HEADER_ROWS] = [
    0, // CFGVendorId, CFGDeviceId
    4, // CFGCommand, CFGStatus
    8, // CFGRevisionId, CFGClassCode
    0xC, // CFGCacheLine, CFGLatTimer, CFGHeaderType, CFGBist
    0x10, // CFGBaseAddr0
    0x14, // CFGBaseAddr1
    0x18, // CFGBaseAddr2
    0x28, // CFGCardBus
    0x2C, // CFGSubsystemVendorId, CFGSubsystemId
    0x30, // CFGRomAddr
    0x34, // CFGCapPtr
    0x3C, // CFGIntLine, CFGIntPin, CFGMinGrant, CFGMaxLat
    0x40, // CFGCapID, CFGNextPtr, CFGAGPRev
    0x44, // CFGAGPStatus
    0x48, // CFGAGPCommand
    0xF8, // CFGIndirectAddress
    0xFC, // CFGIndirectData
];

// The row at an offset of region 0; REGION_ROWS where there is none. This number for none, and the header's, are what region_at_one and header_at_one fix.
#[tactic(auto, using(crate::proofs::Searches::region_ended), unfolding(chip::specs::Region::region_rows))]
pub fn region_at(o: u32) -> usize
    ensures { result ≡ region_at o }
{
    row_with(&REGION_OFFSETS, o).unwrap_or(REGION_ROWS)
}

// The row at an offset of the header; INDIRECT_FIRST, past the header's rows, where there is none.
#[tactic(auto, using(crate::proofs::Searches::header_ended, crate::proofs::Searches::header_short), unfolding(chip::specs::Header::header_rows))]
pub fn header_at(o: u32) -> usize
    ensures { result ≡ header_at o }
{
    HEADER_FIRST + row_with(&HEADER_OFFSETS, o).unwrap_or(HEADER_ROWS)
}

// The row at an offset, if there is one, counted from the first of its part. By the two above, so that what is proved of them holds what an access runs.
#[tactic(auto, unfolding(crate::specs::Found::region_row, chip::specs::Bank::region_at))]
pub(crate) fn region_row(o: u32) -> Option<usize>
    ensures { result ≡ region_row o }
{
    let i = region_at(o);
    if i < REGION_ROWS { Some(i) } else { None }
}

#[tactic(auto, using(crate::proofs::Searches::header_within), unfolding(crate::specs::Found::header_row, chip::specs::Bank::header_at))]
pub(crate) fn header_row(o: u32) -> Option<usize>
    ensures { result ≡ header_row o }
{
    let i = header_at(o);
    if i < INDIRECT_FIRST {
        Some(i - HEADER_FIRST)
    } else {
        None
    }
}

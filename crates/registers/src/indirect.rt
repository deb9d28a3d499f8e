// The map of the RAMDAC's indirect registers: an entry for every index from 0 to 255, which has the row of the bank that the index
// names (000, table 5.2; 01, RAMDAC).
ghost use Rattle.std.specs.Prelude.{◌≡◌};
ghost use Rattle.chip.specs.Bank.{indirect_entry};
ghost use Rattle.registers.specs.Packed.{packed_at};
ghost use Rattle.registers.specs.Found.{indirect_row};

// Writable in bits 0-7, reset in 8-15, the row in 16-23, exists in bit 24, reads in bit 25. Packed, and not an array of Option<struct>: the kit builds such a
// constant anew at each look-up, element by element, and the proof would go through all 256.
const INDIRECT: [u32; 256] = [
    0, // 00h
    0, 0, 0, 0, 0, 0x337007F, // 06h RDCursorControl
    0, // 07h
    0, 0, 0, 0, 0, 0, 0, 0, 0, // 10h
    0, 0, 0, 0, 0, 0, 0, 0x33800BF, // 18h RDColorMode
    0x3390007, // 19h RDModeControl
    0, 0, 0x33A00FF, // 1Ch RDPalettePage
    0, 0x33B003F, // 1Eh RDMiscControl
    0, 0x13C1CFF, // 20h RDPixelClockA1
    0x13D02FF, // 21h RDPixelClockA2
    0x13E0B0B, // 22h RDPixelClockA3
    0x13F10FF, // 23h RDPixelClockB1
    0x14002FF, // 24h RDPixelClockB2
    0x1410B0B, // 25h RDPixelClockB3
    0x14200FF, // 26h RDPixelClockC1
    0x14300FF, // 27h RDPixelClockC2
    0x144000B, // 28h RDPixelClockC3
    0x3450000, // 29h RDPixelClockStatus
    0, 0, 0, 0, 0, 0, 0x1461CFF, // 30h RDMemoryClock1
    0x14702FF, // 31h RDMemoryClock2
    0x1480203, // 32h RDMemoryClock3
    0x3490000, // 33h RDMemoryClockStatus
    0, 0, 0, 0, 0, 0, 0, 0, 0, 0, 0, 0, 0x34A001F, // 40h RDColorKeyControl
    0x34B00FF, // 41h RDOverlayKey
    0x34C00FF, // 42h RDRedKey
    0x34D00FF, // 43h RDGreenKey
    0x34E00FF, // 44h RDBlueKey
    0, 0, 0, 0, 0, 0, 0, 0, 0, 0, 0, 0, // 50h
    0, 0, 0, 0, 0, 0, 0, 0, 0, 0, 0, 0, 0, 0, 0, 0, // 60h
    0, 0, 0, 0, 0, 0, 0, 0, 0, 0, 0, 0, 0, 0, 0, 0, // 70h
    0, 0, 0, 0, 0, 0, 0, 0, 0, 0, 0, 0, 0, 0, 0, 0, // 80h
    0, 0, 0, 0, 0, 0, 0, 0, 0, 0, 0, 0, 0, 0, 0, 0, // 90h
    0, 0, 0, 0, 0, 0, 0, 0, 0, 0, 0, 0, 0, 0, 0, 0, // A0h
    0, 0, 0, 0, 0, 0, 0, 0, 0, 0, 0, 0, 0, 0, 0, 0, // B0h
    0, 0, 0, 0, 0, 0, 0, 0, 0, 0, 0, 0, 0, 0, 0, 0, // C0h
    0, 0, 0, 0, 0, 0, 0, 0, 0, 0, 0, 0, 0, 0, 0, 0, // D0h
    0, 0, 0, 0, 0, 0, 0, 0, 0, 0, 0, 0, 0, 0, 0, 0, // E0h
    0, 0, 0, 0, 0, 0, 0, 0, 0, 0, 0, 0, 0, 0, 0, 0, // F0h
    0, 0, 0, 0, 0, 0, 0, 0, 0, 0, 0, 0, 0, 0, 0,
];

#[tactic(auto, using(crate::proofs::PackedEntries::packed_at_lem), unfolding(crate::proofs::PackedEntries::packed_map, crate::specs::Packed::packed_at, crate::specs::Packed::packed, crate::specs::Packed::index_row, chip::proofs::Computed::computed))]
fn packed_of(i: u8) -> u32
    ensures { result ≡ packed_at i }
{
    INDIRECT[usize::from(i)]
}

#[tactic(auto, using(crate::proofs::PackedEntries::exists_in))]
// Four functions and no struct of an entry: index_exists_one, index_writable_one, index_reads_one and index_reset_one are about them.
pub fn index_exists(i: u8) -> bool
    ensures { result ≡ (indirect_entry i).exists }
{
    packed_of(i) / 0x1000000 % 2 == 1
}

#[tactic(auto, using(crate::proofs::PackedEntries::unpacks))]
pub fn index_writable(i: u8) -> u8
    ensures { result ≡ (indirect_entry i).writable }
{
    (packed_of(i) % 256) as u8
}

#[tactic(auto, using(crate::proofs::PackedEntries::reads_in))]
pub fn index_reads(i: u8) -> bool
    ensures { result ≡ (indirect_entry i).reads }
{
    packed_of(i) / 0x2000000 % 2 == 1
}

#[tactic(auto, using(crate::proofs::PackedEntries::unpacks))]
pub fn index_reset(i: u8) -> u8
    ensures { result ≡ (indirect_entry i).reset }
{
    (packed_of(i) / 256 % 256) as u8
}

// The row of the register at an index.
#[tactic(auto, using(crate::proofs::Searches::index_named), unfolding(crate::specs::Found::indirect_row, chip::specs::Bank::indirect_entry))]
pub(crate) fn indirect_row(i: u8) -> Option<usize>
    ensures { result ≡ indirect_row i }
{
    if index_exists(i) {
        Some((packed_of(i) / 65536 % 256) as usize)
    } else {
        None
    }
}

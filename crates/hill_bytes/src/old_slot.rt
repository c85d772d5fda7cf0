//! The slot of the old format, as one of the new.

ghost use Rattle.std.specs.Prelude.{◌≡◌, ◌++◌, drop, length, replicate, take};
ghost use Rattle.hill_bytes.specs.Layout.{HoldsSame, old_layout};

use crate::header::writer::SectorWriter;
use crate::slot::{FIELDS_AT, LAST, Slot};

/// Sectors of a slot in the old format.
const OLD_SECTORS: usize = 2;

/// The sectors of a slot in the old format: the first holds instructions 0 to 63, the last instructions 64 to 99 and, at the same places as
/// in the new one, their number, the start, the two names, and the results by the older warrior's slot.
#[derive(Debug, Drop)]
pub struct OldSlot {
    /// In their order on the device.
    pub sectors: [[u8; 512]; OLD_SECTORS],
}

impl OldSlot {
    /// The slot of the new format that holds the same. It needs no memory.
    pub fn widened(&self) -> Slot
        ensures { HoldsSame old_layout result.sectors self.now.sectors }
    {
        let mut slot = Slot::blank();
        slot.sectors[0] = self.sectors[0];
        slot.sectors[1] = code_part(&self.sectors[1]);
        slot.sectors[LAST] = fields_part(&self.sectors[1]);
        slot
    }
}

/// The code of a last sector, and zeros after it.
fn code_part(last: &[u8; 512]) -> [u8; 512]
    ensures value { result ≡ take 288 last.now ++ replicate 224 0 }
    ensures len { length last.now ≡ 512 }
{
    let mut sector = SectorWriter::new();
    sector.put(&last[..FIELDS_AT]);
    sector.put_zeros(512 - FIELDS_AT);
    sector.into_sector()
}

/// The fields of a last sector, at their places, and zeros in front of them.
fn fields_part(last: &[u8; 512]) -> [u8; 512]
    ensures { result ≡ replicate 288 0 ++ drop 288 last.now }
{
    let mut sector = SectorWriter::new();
    sector.put_zeros(FIELDS_AT);
    sector.put(&last[FIELDS_AT..]);
    sector.into_sector()
}

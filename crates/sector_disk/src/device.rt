//! The trait of a sector device.

ghost use Rattle.std.specs.Prelude.{◌≡◌, ◌<◌, [], ◌∷◌, OnOk};
ghost use Rattle.sector_disk.specs.{Disk.{current, wrote, synced}, Facts.DeviceFacts, Changes.Changes, Served.IsServed};

use thiserror::Error;

/// The device failed in the call that answers this.
#[derive(Clone, Copy, Debug, PartialEq, Eq, Error)]
#[error("the device failed")]
pub struct Fault;

/// A device of sectors of 512 bytes each, numbered from 0.
///
/// Each sector has a stable content, and the contents written to it since the last sync. A stop leaves of each sector, by
/// itself, the stable content or any one of the others. All that is said of contents is said of a lawful device.
pub trait Device {
    /// The number of its sectors, whether it keeps the laws of contents, what its sectors hold, and the faults that it has counted.
    ghost facts: { DeviceFacts Self };

    /// The number of sectors. No call changes it.
    fn sectors(&self) -> u32
        ensures { result ≡ facts.size self.now };

    /// The number of calls that have answered a fault, up to the greatest `u64`.
    fn faults(&self) -> u64
        ensures { result ≡ facts.faults self.now };

    /// Reads a sector: the last content written, else the stable one. After a `Fault` the device is as it was, and `to` holds
    /// any bytes.
    fn read(&mut self, n: u32, to: &mut [u8; 512]) -> Result<(), Fault>
        requires { n < facts.size self.old }
        ensures served { IsServed facts self.old self.new result }
        ensures kept { facts.lawful self.old → facts.disk self.new ≡ facts.disk self.old }
        ensures given { facts.lawful self.old → OnOk result (to.new ≡ current (facts.disk self.old) n) };

    /// Writes a sector. Until the next sync a stop may lose it or keep it. After a `Fault` it was written in full or not at all.
    fn write(&mut self, n: u32, from: &[u8; 512]) -> Result<(), Fault>
        requires { n < facts.size self.old }
        ensures served { IsServed facts self.old self.new result }
        ensures changes { facts.lawful self.old → Changes (wrote n from.now ∷ []) (facts.disk self.old) (facts.disk self.new) result };

    /// Makes the last content of each sector its stable one. After a `Fault` it did so for all of them or for none.
    fn sync(&mut self) -> Result<(), Fault>
        ensures served { IsServed facts self.old self.new result }
        ensures changes { facts.lawful self.old → Changes (synced ∷ []) (facts.disk self.old) (facts.disk self.new) result };
}

//! The trait of sectors that are read alone.

ghost use Rattle.std.specs.Prelude.{◌≡◌, ◌<◌, OnOk};
ghost use Rattle.sector_disk.specs.{Facts.DeviceFacts, Served.IsServed};
ghost use Rattle.hill_look.specs.{Looked.shown, Meanwhile.{MovesOn, StoodAt}};

use sector_disk::Fault;

/// Sectors of 512 bytes each, numbered from 0, which are read while a store of another program may write them.
///
/// All that is said of contents is said of a lawful source. Before, in and after each read a store may have made any
/// number of writes, as `Meanwhile` in `specs` says. A sector is read as it was before a write of it or after it.
pub trait Source {
    /// The number of its sectors, whether it keeps the laws of contents, what its sectors hold, and the faults that it
    /// has counted.
    ghost facts: { DeviceFacts Self };

    /// The number of sectors. No call changes it.
    fn sectors(&self) -> u32
        ensures { result ≡ facts.size self.now };

    /// Reads a sector. After a `Fault` `to` holds any bytes.
    fn read(&mut self, n: u32, to: &mut [u8; 512]) -> Result<(), Fault>
        requires { n < facts.size self.old }
        ensures served { IsServed facts self.old self.new result }
        ensures moved { facts.lawful self.old → MovesOn (shown facts self.old) (shown facts self.new) }
        ensures given { facts.lawful self.old
            → OnOk result (StoodAt (shown facts self.old) (shown facts self.new) n to.new) };
}

//! The zeros that a new hill starts from: a file is searched for other bytes, and zeros are written to it.

ghost use Rattle.std.specs.Prelude.{◌≡◌, ◌↔◌, IfErr, IfSome, IsTrue, OnOk};
ghost use Rattle.hill_file.specs.Zeros.{AreZeros};

use crate::open_fault::OpenFault;
use std::fs::OpenFile;
use std::io;
use std::io::{ErrorKind, Read, Seek, SeekFrom, Write};

/// Bytes that are read at once.
const CHUNK_BYTES: usize = 4096;

/// Reads the file to its end. `Occupied` at the first byte that isn't zero, and `Failed` with `ResourceBusy` if the
/// file grows meanwhile.
pub(crate) fn require_zeros<F: Read + OpenFile>(file: &mut F) -> Result<(), OpenFault>
    ensures zeros { OnOk result (IfSome (F.remaining file.old) AreZeros) }
    ensures other { IfErr result (λ fault. fault ≡ OpenFault.Occupied
        → IfSome (F.remaining file.old) (λ bytes. AreZeros bytes → ⊥)) }
{
    let mut bytes = [0; CHUNK_BYTES];
    let length = file.metadata()?.len();
    // Each read but the one at the end gives a byte at least.
    for _ in 0..=length {
        let count = file.read(&mut bytes)?;
        if count == 0 {
            return Ok(());
        }
        if !are_zeros(&bytes[..count]) {
            return Err(OpenFault::Occupied);
        }
    }
    Err(OpenFault::Failed(ErrorKind::ResourceBusy))
}

/// Each of these bytes is zero.
fn are_zeros(bytes: &[u8]) -> bool
    ensures { IsTrue result ↔ AreZeros bytes.now }
{
    bytes.iter().all(|byte| *byte == 0)
}

/// Writes this many sectors of zeros at the front of the file, and syncs it. They are written and not only counted in
/// its length, so that a full disk shows here.
pub(crate) fn write_zeros<F: OpenFile + Write + Seek>(
    file: &mut F,
    sectors: u32,
) -> io::Result<()> {
    file.seek(SeekFrom::Start(0))?;
    for _ in 0..sectors {
        file.write_all(&[0; 512])?;
    }
    file.sync_all()
}

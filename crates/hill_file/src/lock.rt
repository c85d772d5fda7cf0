//! The lock of a file.
#![tactic(auto, using(crate::proofs::OfSystem::fault_of_system, crate::proofs::OfSystem::whatever_held))]

ghost use Rattle.{std.specs.Prelude.IfErr, hill_file.specs.OpenFault.{IsOfSystem, IsWhateverHeld}};

use crate::open_fault::OpenFault;
use crate::placed_file::opened;
use std::fs::{File, Files, TryLockError};
use std::io::ErrorKind;
use std::os::unix::fs::FileExt;

/// A file that is read and written at an offset, and whose lock can be taken without waiting. The system releases the
/// lock with the handle, also if the program is stopped.
pub trait TryLock: FileExt {
    /// Takes the lock. `Locked` if another open of the file holds it, and `Memory` or `Failed` if the system can't lock
    /// the file.
    fn lock_now(&self) -> Result<(), OpenFault>
        ensures { IfErr result IsWhateverHeld };
}

impl TryLock for File {
    fn lock_now(&self) -> Result<(), OpenFault> {
        match self.try_lock() {
            Ok(()) => Ok(()),
            Err(TryLockError::WouldBlock) => Err(OpenFault::Locked),
            Err(TryLockError::Error(error)) => Err(OpenFault::from(error)),
        }
    }
}

/// The lock of the file at this path, which this program holds, keeps another open of the file from taking it. `Failed`
/// with `Unsupported` if it doesn't: some file systems grant a lock to everybody, as of networks. Never `Locked`.
pub fn require_held<R: Files>(rt: &R, path: &str) -> Result<(), OpenFault>
where
    R::File: TryLock,
    ensures { IfErr result IsOfSystem }
{
    match opened(rt, path)?.lock_now() {
        Err(OpenFault::Locked) => Ok(()),
        Ok(()) => Err(OpenFault::Failed(ErrorKind::Unsupported)),
        Err(fault) => Err(fault),
    }
}

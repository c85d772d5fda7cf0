//! The place of a hill's file: a new file is made beside it, and put there when it is whole.
#![tactic(auto, using(crate::proofs::OfSystem::fault_of_system, crate::proofs::OfSystem::whatever_held))]

ghost use Rattle.std.specs.Prelude.{◌≡◌, ◌++◌, codes, string_bytes, IfErr, IfOk};
ghost use Rattle.hill_file.specs.OpenFault.{IsOfSystem, IsWhateverHeld};

use crate::device::Existing;
use crate::folder::open_folder;
use crate::lock::TryLock;
use crate::open_fault::OpenFault;
use crate::placed_file::{is_same_file, opened};
use crate::zeros::require_zeros;
use std::alloc::{AllocError, Allocator};
use std::fs::{Files, OpenFile};
use std::io;
use std::io::ErrorKind;
use std::os::unix::fs::MetadataExt;
use std::path::Path;

/// The name under which the new file is made for the place at this path: that of the place with `.new` after it.
pub fn name_beside<A: Allocator>(alloc: A, path: &str) -> Result<String<A>, AllocError>
    ensures { IfOk result (λ name. string_bytes name ≡ path.now ++ codes ".new") }
{
    format!(in alloc; "{}.new", path)
}

/// The place of a hill's file. If a file is there, its lock is held until this is dropped.
#[derive(Drop)]
pub struct Place<'f, R: Files> {
    rt: &'f R,
    path: &'f str,
    existing: Existing,
    old: Option<R::File>,
}

impl<'f, R: Files> Place<'f, R>
where
    R::File: TryLock,
{
    /// The place at this path. Nothing is changed.
    ///
    /// `Locked` if another program holds the lock of a file that is there. `Occupied` if `existing` is `Kept` and a
    /// link is there, or a file of which one byte isn't zero. `Failed` with the system's reason if what is there can't
    /// be opened or read, as with `IsADirectory`, with `InvalidInput` if it is no file, as a pipe, and with
    /// `ResourceBusy` if it grows while it is read.
    pub fn take(rt: &'f R, path: &'f str, existing: Existing) -> Result<Place<'f, R>, OpenFault>
        ensures overwritten { existing ≡ Existing.Overwritten → IfErr result IsWhateverHeld }
    {
        let old = match existing {
            Existing::Kept => kept_file(rt, path)?,
            Existing::Overwritten => locked_file(rt, path)?,
        };
        Ok(Place {
            rt,
            path,
            existing,
            old,
        })
    }
}

impl<R: Files> Place<'_, R> {
    /// Puts the file of the name `new` here, and makes its name here reach the disk. It has no other name then.
    ///
    /// What is there is replaced if it may be overwritten, a link itself and not what it leads to. Else only a file is
    /// that was there when the place was taken: `Occupied` if it isn't of the owner of the new one, or if something is
    /// there now and nothing was then. `Failed` with `StaleNetworkFileHandle` if another file is there now, with
    /// `Unsupported` if a file can't have a second name, and with the system's reason if a call fails. If the new file
    /// isn't here after a fault, it is removed, if the system lets it be.
    pub fn fill(&self, new: &str) -> Result<(), OpenFault>
        ensures overwritten { self.now.existing ≡ Existing.Overwritten → IfErr result IsWhateverHeld }
    {
        match self.exchange(new) {
            Ok(()) => Ok(sync_folder(self.rt, self.path)?),
            Err(fault) => {
                let _ = self.rt.remove_file(new);
                Err(fault)
            }
        }
    }

    /// Gives the file its name here in place of the name `new`.
    fn exchange(&self, new: &str) -> Result<(), OpenFault>
        ensures { self.now.existing ≡ Existing.Overwritten → IfErr result IsWhateverHeld }
    {
        match (self.existing, &self.old) {
            (Existing::Kept, None) => self.link(new),
            (Existing::Kept, Some(old)) => {
                self.require_replaceable(old, new)?;
                Ok(self.rt.rename(new, self.path)?)
            }
            (Existing::Overwritten, _) => Ok(self.rt.rename(new, self.path)?),
        }
    }

    /// Gives the file its name here, where nothing is, and takes the name `new` away.
    fn link(&self, new: &str) -> Result<(), OpenFault> {
        match self.rt.hard_link(new, self.path) {
            Ok(()) => Ok(self.rt.remove_file(new)?),
            Err(error) => Err(fault_of_link(&error)),
        }
    }

    /// The file that was here is here still, and its owner is the new one's.
    fn require_replaceable(&self, old: &R::File, new: &str) -> Result<(), OpenFault> {
        let old = old.metadata()?;
        let here = self.rt.symlink_metadata(self.path)?;
        let new = self.rt.symlink_metadata(new)?;
        if !is_same_file(&old, &here) {
            return Err(OpenFault::Failed(ErrorKind::StaleNetworkFileHandle));
        }
        if old.uid() != new.uid() {
            return Err(OpenFault::Occupied);
        }
        Ok(())
    }
}

/// Why a file gets no second name. The system permits none where the file system has none.
fn fault_of_link(error: &io::Error) -> OpenFault {
    match error.kind() {
        ErrorKind::AlreadyExists => OpenFault::Occupied,
        ErrorKind::OutOfMemory => OpenFault::Memory,
        ErrorKind::PermissionDenied => OpenFault::Failed(ErrorKind::Unsupported),
        kind => OpenFault::Failed(kind),
    }
}

/// Makes the names in the folder of this path reach the disk. It takes no memory: the file is in its place by then.
fn sync_folder<R: Files>(rt: &R, path: &str) -> io::Result<()> {
    open_folder(rt, Path::new(path))?.sync_all()
}

/// The file at this path, locked, which holds zeros alone. `None` if nothing is there.
fn kept_file<R: Files>(rt: &R, path: &str) -> Result<Option<R::File>, OpenFault>
where
    R::File: TryLock,
{
    if is_link(rt, path)? {
        return Err(OpenFault::Occupied);
    }
    let Some(mut file) = locked_file(rt, path)? else {
        return Ok(None);
    };
    require_zeros(&mut file)?;
    Ok(Some(file))
}

/// Whether a link is at this path.
fn is_link<R: Files>(rt: &R, path: &str) -> io::Result<bool> {
    match rt.symlink_metadata(path) {
        Ok(found) => Ok(found.is_symlink()),
        Err(error) if error.kind() == ErrorKind::NotFound => Ok(false),
        Err(error) => Err(error),
    }
}

/// The file to which this path leads, locked. `None` if it leads to nothing.
fn locked_file<R: Files>(rt: &R, path: &str) -> Result<Option<R::File>, OpenFault>
where
    R::File: TryLock,
    ensures { IfErr result IsWhateverHeld }
{
    match opened(rt, path) {
        Ok(file) => {
            lock_file(&file)?;
            Ok(Some(file))
        }
        Err(OpenFault::Failed(ErrorKind::NotFound)) => Ok(None),
        Err(fault) => Err(fault),
    }
}

/// Takes the lock of what has to be a file.
fn lock_file<F: OpenFile + TryLock>(file: &F) -> Result<(), OpenFault>
    ensures { IfErr result IsWhateverHeld }
{
    if !file.metadata()?.is_file() {
        return Err(OpenFault::Failed(ErrorKind::InvalidInput));
    }
    file.lock_now()
}

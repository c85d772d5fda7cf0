//! The device over a hill's file.
#![tactic(auto, using(crate::proofs::OfSystem::fault_of_system, crate::proofs::OfSystem::whatever_held))]

ghost use Rattle.std.specs.Prelude.{◌≡◌, ◌≤◌, false, IfErr, IfOk};
ghost use Rattle.hill_file.specs.OpenFault.{IsOfSystem, IsWhateverHeld};

use crate::careful_device::CarefulDevice;
use crate::folder::own_folder;
use crate::lock::{TryLock, require_held};
use crate::open_fault::OpenFault;
use crate::placed_file::{PlacedFile, Sharing, opened};
use crate::zeros::{require_zeros, write_zeros};
use sector_disk::{Device, sync_name};
use std::alloc::Allocator;
use std::fs::{File, Files, OpenFile};
use std::io;
use std::io::ErrorKind;
use std::os::unix::fs::OpenOptionsExt;

/// Who may read and write a file that is made: its owner.
const OWNER_ONLY: u32 = 0o600;

/// What becomes of a file that is there and holds something.
#[derive(Clone, Copy, Debug, PartialEq, Eq)]
pub enum Existing {
    /// It stays as it is, and is refused unless it holds zeros alone.
    Kept,
    /// It is emptied.
    Overwritten,
}

/// A careful device over the file at a path: the n-th 512 bytes of the file are sector n. It keeps the file's lock, if
/// it took it, until it is dropped.
///
/// It looks before each write and after each sync: the path has to lead to the file that is open still. If it
/// doesn't, or if the system doesn't say, the call is a fault. So a hill whose file was removed, replaced, cut or
/// written by another program is never said to be synced, and nothing is written over what was copied in.
pub type HillFile<'f, R> = CarefulDevice<PlacedFile<'f, R>>;

impl<'f, R: Files> CarefulDevice<PlacedFile<'f, R>>
where
    R::File: TryLock,
{
    /// The device over the file at this path, which has to be there. It has counted no fault.
    ///
    /// It is in doubt if the file holds a hill and may be written. Then its first sync that is answered `Ok` synced the
    /// folder of the file, too, and if the path is a link, that is the folder of the file itself.
    ///
    /// `Locked` if `sharing` isn't `Shared` and another program holds the lock. `Memory` also if there is no memory for
    /// the name of the folder. `Failed` with `NotFound` if there is no file, with `StaleNetworkFileHandle` if there is
    /// another by the time that it is locked, with `Other` if its headers can't be read, and else with the system's
    /// reason, as for a folder, or if that of a file in doubt can't be opened. Never `Occupied`.
    pub fn open<A: Allocator>(
        rt: &'f R,
        alloc: A,
        path: &'f str,
        sharing: Sharing,
    ) -> Result<HillFile<'f, R>, OpenFault>
        ensures faults { IfOk result (λ hill. hill.faults ≡ 0) }
        ensures shared { sharing ≡ Sharing.Shared → IfErr result IsOfSystem }
        ensures kept { sharing ≡ Sharing.Kept → IfOk result (λ hill. hill.doubt ≡ false) }
        ensures held { IfErr result IsWhateverHeld }
    {
        let handle = opened(rt, path)?;
        match sharing {
            Sharing::Alone | Sharing::Kept => handle.lock_now()?,
            Sharing::Shared => {}
        }
        let mut file = PlacedFile {
            rt,
            path,
            handle,
            sharing,
            folder: None,
        };
        let doubt = may_hold_a_hill(&mut file)?;
        if doubt {
            file.folder = Some(own_folder(rt, alloc, path)?);
        }
        careful_over(file, doubt, 0)
    }

    /// A device of at least `sectors` sectors, which all hold zeros, over the file at this path, locked for this
    /// program alone. It has counted no fault.
    ///
    /// If there is no file, one is created that only its owner may read and write. A longer file of zeros is not
    /// shortened. The zeros have been written. They and the file's name have reached the disk, also if an earlier call
    /// that made the file was cut short. If the path is a link, that is the name in the folder of the file itself.
    ///
    /// `Locked` if another program holds the lock, and `Occupied` if `existing` is `Kept` and one byte of the file
    /// isn't zero: then the file is as it was. `Failed` as `open` says, with the system's reason if the file can't be
    /// created, read, written or synced, as with `StorageFull`, with `InvalidInput` if the path leads to what is no
    /// file, as a pipe, and with `ResourceBusy` if the file grows while it is read. After a failed write, what was
    /// written of the zeros stays.
    pub fn make<A: Allocator>(
        rt: &'f R,
        alloc: A,
        path: &'f str,
        sectors: u32,
        existing: Existing,
    ) -> Result<HillFile<'f, R>, OpenFault>
        ensures enough { IfOk result (λ hill. sectors ≤ hill.sectors) }
        ensures faults { IfOk result (λ hill. hill.faults ≡ 0) }
        ensures overwritten { existing ≡ Existing.Overwritten → IfErr result IsWhateverHeld }
    {
        let mut options = File::options();
        options.read(true).write(true).create(true);
        options.mode(OWNER_ONLY);
        let mut handle = options.open(rt, path)?;
        handle.lock_now()?;
        fill(&mut handle, existing, sectors)?;
        sync_name(rt, alloc, path)?;
        let file = PlacedFile {
            rt,
            path,
            handle,
            sharing: Sharing::Alone,
            folder: None,
        };
        device_over(file, sectors)
    }

    /// A device of at least `sectors` sectors, which all hold zeros, over a new file at this path, locked for this
    /// program alone. It has counted no fault. Only its owner may read and write the file. The zeros have reached the
    /// disk.
    ///
    /// `Failed` with `AlreadyExists` if there is something at this path, a link too, and then nothing is changed.
    /// `Failed` as `open` says, with `Unsupported` if the lock is granted to another open as well, and with the
    /// system's reason if the file can't be created, written or synced, as with `StorageFull`. After each of these
    /// faults the file is removed, if the system lets it be. Never `Occupied`.
    pub fn make_new(rt: &'f R, path: &'f str, sectors: u32) -> Result<HillFile<'f, R>, OpenFault>
        ensures enough { IfOk result (λ hill. sectors ≤ hill.sectors) }
        ensures faults { IfOk result (λ hill. hill.faults ≡ 0) }
        ensures held { IfErr result IsWhateverHeld }
    {
        let mut options = File::options();
        options.read(true).write(true).create_new(true);
        options.mode(OWNER_ONLY);
        let handle = options.open(rt, path)?;
        match over_new(rt, path, handle, sectors) {
            Ok(hill) => Ok(hill),
            Err(fault) => {
                let _ = rt.remove_file(path);
                Err(fault)
            }
        }
    }
}

/// The same over the file of this handle, which was just created.
fn over_new<'f, R: Files>(
    rt: &'f R,
    path: &'f str,
    mut handle: R::File,
    sectors: u32,
) -> Result<HillFile<'f, R>, OpenFault>
where
    R::File: TryLock,
    ensures enough { IfOk result (λ hill. sectors ≤ hill.sectors) }
    ensures faults { IfOk result (λ hill. hill.faults ≡ 0) }
    ensures held { IfErr result IsWhateverHeld }
{
    handle.lock_now()?;
    require_held(rt, path)?;
    write_zeros(&mut handle, sectors)?;
    let file = PlacedFile {
        rt,
        path,
        handle,
        sharing: Sharing::Alone,
        folder: None,
    };
    device_over(file, sectors)
}

/// The device over this file, in doubt if the file holds a hill that may be changed. Its faults are those of
/// `may_hold_a_hill` and `careful_over`.
fn device_over<'f, R: Files>(
    file: PlacedFile<'f, R>,
    least: u32,
) -> Result<HillFile<'f, R>, OpenFault>
where
    R::File: TryLock,
    ensures enough { IfOk result (λ hill. least ≤ hill.sectors) }
    ensures faults { IfOk result (λ hill. hill.faults ≡ 0) }
    ensures system { IfErr result IsOfSystem }
{
    let mut file = file;
    let doubt = may_hold_a_hill(&mut file)?;
    careful_over(file, doubt, least)
}

/// Whether this file holds a hill that may be changed. `Failed` with `StaleNetworkFileHandle` if the path leads
/// elsewhere by now, and with the system's reason if its headers can't be read.
fn may_hold_a_hill<R: Files>(file: &mut PlacedFile<'_, R>) -> Result<bool, OpenFault>
where
    R::File: TryLock,
    ensures sharing { file.new.sharing ≡ file.old.sharing }
    ensures kept { file.old.sharing ≡ Sharing.Kept → IfOk result (λ doubt. doubt ≡ false) }
    ensures system { IfErr result IsOfSystem }
{
    let Some(sectors) = file.sectors_in_place()? else {
        return Err(OpenFault::Failed(ErrorKind::StaleNetworkFileHandle));
    };
    Ok(2 <= sectors && file.begins_as_a_hill()?)
}

/// The device over this file, in doubt or not. `Failed` with `UnexpectedEof` if it has fewer than `least` sectors, and
/// with `Other` if its headers can't be read.
fn careful_over<'f, R: Files>(
    file: PlacedFile<'f, R>,
    doubt: bool,
    least: u32,
) -> Result<HillFile<'f, R>, OpenFault>
where
    R::File: TryLock,
    ensures enough { IfOk result (λ hill. least ≤ hill.sectors) }
    ensures faults { IfOk result (λ hill. hill.faults ≡ 0) }
    ensures doubt { IfOk result (λ hill. hill.doubt ≡ doubt) }
    ensures system { IfErr result IsOfSystem }
{
    let Ok(device) = CarefulDevice::over(file, doubt) else {
        return Err(OpenFault::Failed(ErrorKind::Other));
    };
    if device.sectors() < least {
        return Err(OpenFault::Failed(ErrorKind::UnexpectedEof));
    }
    Ok(device)
}

/// Gives a file this many sectors of zeros at its front, which have reached the disk.
fn fill<F: OpenFile + io::Read + io::Write + io::Seek>(
    file: &mut F,
    existing: Existing,
    sectors: u32,
) -> Result<(), OpenFault>
    ensures { existing ≡ Existing.Overwritten → IfErr result IsOfSystem }
{
    clear(file, existing)?;
    Ok(write_zeros(file, sectors)?)
}

/// Makes a file ready for zeros: one that is kept holds nothing else, and one that is overwritten is emptied.
fn clear<F: OpenFile + io::Read>(file: &mut F, existing: Existing) -> Result<(), OpenFault>
    ensures { existing ≡ Existing.Overwritten → IfErr result IsOfSystem }
{
    if !file.metadata()?.is_file() {
        return Err(OpenFault::Failed(ErrorKind::InvalidInput));
    }
    match existing {
        Existing::Kept => require_zeros(file),
        Existing::Overwritten => Ok(file.set_len(0)?),
    }
}

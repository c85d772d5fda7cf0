//! How a hill is made in a file.

ghost use Rattle.std.specs.Prelude.{◌≡◌, ◌⊎◌, IfErr, IfOk, OnOk};
ghost use Rattle.{koth_hill.specs.Kept.new_kept, sector_disk.specs.{Image.Images, Served.IsKept}};
ghost use Rattle.hill_images.specs.{Opening.HoldsNone, Stands.Reads};
ghost use Rattle.{hill_store.specs.{Opened.IsCreated, Read.IsCopied}, koth_commands.specs.declared.{cause.Reason.Reason, trouble.Fault.Fault}, koth_files.specs.Trouble.{not_made_at, told_at, IsOfHill}};

use crate::opening::HillStore;
use crate::trouble::{refused_at, told_at, unopened_at};
use hill_file::{Existing, HillFile, OpenFault, Place, TryLock, name_beside};
use hill_store::{Refusal, Store, sectors_for};
use koth_commands::Reason;
use koth_commands::trouble::{Fault, Trouble};
use sector_disk::Device;
use std::alloc::{AllocError, Allocator};
use std::rt::Files;
use war_types::Settings;

/// Creates a hill in a new file, just large enough for it, which then takes its place at this path.
pub fn create_hill<'f, R: Files, A: Allocator + Copy>(
    rt: &R,
    alloc: A,
    settings: Settings,
    path: &'f str,
    existing: Existing,
) -> Result<(), Trouble<'f>>
where
    R::File: TryLock,
    ensures { IfErr result IsOfHill }
{
    match name_beside(alloc, path) {
        Ok(new) => create_beside(rt, alloc, settings, path, new.as_str(), existing),
        Err(AllocError) => Err(Trouble::memory()),
    }
}

/// The same with this name for the new file until then.
fn create_beside<'f, R: Files, A: Allocator + Copy>(
    rt: &R,
    alloc: A,
    settings: Settings,
    path: &'f str,
    new: &str,
    existing: Existing,
) -> Result<(), Trouble<'f>>
where
    R::File: TryLock,
    ensures { IfErr result IsOfHill }
{
    let place = match Place::take(rt, path, existing) {
        Ok(place) => place,
        Err(fault) => return Err(unopened_at(path, fault)),
    };
    match create_new(rt, alloc, settings, path, new) {
        Ok(_store) => match place.fill(new) {
            Ok(()) => Ok(()),
            Err(fault) => Err(unopened_at(path, fault)),
        },
        Err(trouble) => Err(trouble),
    }
}

/// Creates the hill in a new file of the name `new`, for the place at this path. The file is removed if that fails.
fn create_new<'f, 'n, R: Files, A: Allocator + Copy>(
    rt: &'n R,
    alloc: A,
    settings: Settings,
    path: &'f str,
    new: &'n str,
) -> Result<HillStore<'n, R, A>, Trouble<'f>>
where
    R::File: TryLock,
    ensures made { IfOk result (λ store. store.hill ≡ new_kept settings 0) }
    ensures of_hill { IfErr result IsOfHill }
{
    let device = match HillFile::make_new(rt, new, sectors_for(settings.capacity())) {
        Ok(device) => device,
        Err(fault) => return Err(unopened_at(path, fault)),
    };
    match create_on(alloc, settings, device) {
        Ok(store) => Ok(store),
        Err(refusal) => {
            let _ = rt.remove_file(new);
            Err(refused_at(path, refusal))
        }
    }
}

/// Creates the hill on a device.
fn create_on<D: Device + Drop, A: Allocator + Copy>(
    alloc: A,
    settings: Settings,
    device: D,
) -> Result<Store<D, A>, Refusal>
    ensures { IfOk result (IsCreated D.facts device settings) }
{
    match Store::create(alloc, device, settings) {
        Ok(store) => Ok(store),
        Err((_device, refusal)) => Err(refusal),
    }
}

/// Copies the hill of a store to a new file, just large enough for it, that only its owner may read and write, and
/// which then takes its place at this path. Nothing may be there.
pub fn copy_hill<'f, R: Files, D: Device, A: Allocator + Copy>(
    rt: &R,
    alloc: A,
    store: &Store<D, A>,
    path: &'f str,
) -> Result<(), Trouble<'f>>
where
    R::File: TryLock,
    ensures { IfErr result IsOfHill }
{
    match name_beside(alloc, path) {
        Ok(new) => copy_beside(rt, store, path, new.as_str()),
        Err(AllocError) => Err(Trouble::memory()),
    }
}

/// The same with this name for the new file until then.
fn copy_beside<'f, R: Files, D: Device, A: Allocator + Copy>(
    rt: &R,
    store: &Store<D, A>,
    path: &'f str,
    new: &str,
) -> Result<(), Trouble<'f>>
where
    R::File: TryLock,
    ensures { IfErr result IsOfHill }
{
    // the place of a file of zeros would be filled: so nothing is here before the place is taken, and nothing after
    // that
    require_none(rt, path)?;
    let place = match Place::take(rt, path, Existing::Kept) {
        Ok(place) => place,
        Err(fault) => return Err(trouble_of_new(path, fault)),
    };
    require_none(rt, path)?;
    match copy_new(rt, store, path, new) {
        Ok(_device) => match place.fill(new) {
            Ok(()) => Ok(()),
            Err(fault) => Err(trouble_of_new(path, fault)),
        },
        Err(trouble) => Err(trouble),
    }
}

/// Copies the hill of a store to a new file of the name `new`, for the place at this path. The file is removed if that
/// fails.
fn copy_new<'f, 'n, R: Files, D: Device, A: Allocator + Copy>(
    rt: &'n R,
    store: &Store<D, A>,
    path: &'f str,
    new: &'n str,
) -> Result<HillFile<'n, R>, Trouble<'f>>
where
    R::File: TryLock,
    ensures { IfErr result IsOfHill }
{
    let sectors = sectors_for(store.hill().settings().capacity());
    let mut device = match HillFile::make_new(rt, new, sectors) {
        Ok(device) => device,
        Err(fault) => return Err(unopened_at(path, fault)),
    };
    match copy_on(store, &mut device) {
        Ok(()) => Ok(device),
        Err(refusal) => {
            let _ = rt.remove_file(new);
            Err(refused_at(path, refusal))
        }
    }
}

/// Copies the hill of a store to a device that holds none. Whatever a stop leaves of that holds no hill, or this one;
/// after `Ok` it holds this one.
fn copy_on<D: Device, N: Device, A: Allocator>(
    store: &Store<D, A>,
    new: &mut N,
) -> Result<(), Refusal>
    ensures kept { IsKept N.facts new.old new.new }
    ensures copied { OnOk result (IsCopied N.facts store.now.hill store.now.generation new.old new.new) }
    ensures stopped { N.facts.lawful new.old → Images (N.facts.disk new.old) HoldsNone
        → Images (N.facts.disk new.new) (λ image. HoldsNone image ⊎ Reads (N.facts.size new.new) image store.now.hill) }
{
    store.copy_to(new)
}

/// Refuses a path at which something is.
fn require_none<'f, R: Files>(rt: &R, path: &'f str) -> Result<(), Trouble<'f>>
    ensures { IfErr result (λ trouble. trouble ≡ told_at path.entry Fault.Occupied Reason.NameInUse) }
{
    match rt.symlink_metadata(path) {
        Ok(_) => Err(told_at(path, Fault::Occupied, Reason::NameInUse)),
        Err(_) => Ok(()),
    }
}

/// Why no new file can be made at this path.
fn trouble_of_new<'f>(path: &'f str, fault: OpenFault) -> Trouble<'f>
    ensures told { result ≡ not_made_at path.entry fault }
    ensures of_hill { IsOfHill result }
{
    match fault {
        OpenFault::Occupied => told_at(path, Fault::Occupied, Reason::NameInUse),
        fault => unopened_at(path, fault),
    }
}

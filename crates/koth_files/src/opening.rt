//! How the hill in a file is opened.

ghost use Rattle.std.specs.Prelude.{◌≡◌, ◌≤◌, false, IfErr, IfOk};
ghost use Rattle.{hill_store.specs.Opened.IsOpened, koth_files.specs.{OldHill.{IsUnopened, TellsNoHill, TellsRefusal}, Trouble.{IsOfHill, TellsLock}}};

use crate::damage::damaged_in;
use crate::trouble::{damaged_at, is_lock, locked_at, refused_at, told_at, unopened_at};
use hill_file::{Headers, HillFile, Sharing, TryLock, is_another_hill, require_held};
use hill_images::holds_old_hill;
use hill_store::{Refusal, Store};
use koth_commands::Reason;
use koth_commands::trouble::{Fault, Trouble};
use sector_disk::Device;
use std::alloc::Allocator;
use std::rt::{Clock, Files};
use std::thread::sleep;
use std::time::Duration;

/// How often a lock is tried again in a second.
const TRIES: u64 = 20;

/// A hill in a file.
pub type HillStore<'f, R, A> = Store<HillFile<'f, R>, A>;

/// Opens the hill in a file, whose lock is taken.
fn open_hill<'f, R: Files, A: Allocator + Copy>(
    rt: &'f R,
    alloc: A,
    path: &'f str,
) -> Result<HillStore<'f, R, A>, Trouble<'f>>
where
    R::File: TryLock,
    ensures open_now { IfOk result (λ store. store.reopen ≡ false) }
    ensures of_hill { IfErr result IsOfHill }
{
    match HillFile::open(rt, alloc, path, Sharing::Alone) {
        Ok(device) => open_device(rt, alloc, path, device),
        Err(fault) => Err(unopened_at(path, fault)),
    }
}

/// Opens the hill in a file for this program alone, if the file's lock keeps all others out.
pub fn open_alone<'f, R: Files, A: Allocator + Copy>(
    rt: &'f R,
    alloc: A,
    path: &'f str,
) -> Result<HillStore<'f, R, A>, Trouble<'f>>
where
    R::File: TryLock,
    ensures open_now { IfOk result (λ store. store.reopen ≡ false) }
    ensures of_hill { IfErr result IsOfHill }
{
    match open_hill(rt, alloc, path) {
        Ok(store) => match require_held(rt, path) {
            Ok(()) => Ok(store),
            Err(fault) => Err(unopened_at(path, fault)),
        },
        Err(trouble) => Err(trouble),
    }
}

/// Opens the hill in a file for this program alone, to submit to it. As long as another program has the lock of the
/// file, that is tried again, for this number of seconds. If the lock is not to be had, the trouble says what can be
/// done.
pub fn open_within<'f, R: Files + Clock, A: Allocator + Copy>(
    rt: &'f R,
    alloc: A,
    path: &'f str,
    seconds: u32,
) -> Result<HillStore<'f, R, A>, Trouble<'f>>
where
    R::File: TryLock,
    ensures open_now { IfOk result (λ store. store.reopen ≡ false) }
    ensures of_hill { IfErr result IsOfHill }
    ensures told { IfErr result (TellsLock path.entry seconds) }
{
    for _ in 0..u64::from(seconds) * TRIES {
        match open_hill(rt, alloc, path) {
            Err(trouble) if is_lock(&trouble) => {
                sleep(rt, Duration::from_millis(1000 / TRIES));
            }
            Err(trouble) => return Err(trouble),
            Ok(store) => return Ok(store),
        }
    }
    match open_hill(rt, alloc, path) {
        Err(trouble) if is_lock(&trouble) => Err(locked_at(path, seconds)),
        Err(trouble) => Err(trouble),
        Ok(store) => Ok(store),
    }
}

/// Opens the hill in a file again, which a device has left with these headers. If another hill is there, or an earlier
/// state of that one, nothing is written, and another program is said to use the file.
pub fn reopen_hill<'f, R: Files, A: Allocator + Copy>(
    rt: &'f R,
    alloc: A,
    path: &'f str,
    left: &Headers,
) -> Result<HillStore<'f, R, A>, Trouble<'f>>
where
    R::File: TryLock,
    ensures open_now { IfOk result (λ store. store.reopen ≡ false) }
    ensures of_hill { IfErr result IsOfHill }
{
    match HillFile::open(rt, alloc, path, Sharing::Alone) {
        Ok(device) => {
            if is_another_hill(left, &device.settled()) {
                return Err(told_at(path, Fault::Stream, Reason::InUse));
            }
            open_device(rt, alloc, path, device)
        }
        Err(fault) => Err(unopened_at(path, fault)),
    }
}

/// Opens the hill on the device of a file. If a warrior in it can't be read, the file is read once more for which one
/// it is.
fn open_device<'f, R: Files, A: Allocator + Copy>(
    rt: &'f R,
    alloc: A,
    path: &'f str,
    device: HillFile<'f, R>,
) -> Result<HillStore<'f, R, A>, Trouble<'f>>
where
    R::File: TryLock,
    ensures open_now { IfOk result (λ store. store.reopen ≡ false) }
    ensures of_hill { IfErr result IsOfHill }
{
    match open_on(alloc, path, device) {
        Ok(store) => Ok(store),
        Err(trouble) => Err(with_warrior(rt, alloc, path, trouble)),
    }
}

/// What is reported about a file that wasn't opened: of a hill with a warrior that can't be read, the entry of the
/// first such warrior too, if that can be known.
fn with_warrior<'f, R: Files, A: Allocator + Copy>(
    rt: &'f R,
    alloc: A,
    path: &'f str,
    trouble: Trouble<'f>,
) -> Trouble<'f>
    ensures { result.fault ≡ trouble.entry.fault }
{
    match trouble.fault {
        Fault::Damaged => match damaged_in(rt, alloc, path) {
            Some(entry) => damaged_at(path, entry),
            None => trouble,
        },
        _ => trouble,
    }
}

/// Opens the hill on a device, as the one in the file at this path.
fn open_on<'f, D: Device + Drop, A: Allocator + Copy>(
    alloc: A,
    path: &'f str,
    device: D,
) -> Result<Store<D, A>, Trouble<'f>>
    ensures opened { IfOk result (IsOpened D.facts device) }
    ensures refused { IfErr result (IsUnopened D.facts path.entry device) }
    ensures of_hill { IfErr result IsOfHill }
{
    match Store::open(alloc, device) {
        Ok(store) => Ok(store),
        Err((mut device, refusal)) => Err(trouble_of_opening(path, &mut device, refusal)),
    }
}

/// What is reported about a refused opening.
fn trouble_of_opening<'f, D: Device>(path: &'f str, device: &mut D, refusal: Refusal) -> Trouble<'f>
    requires { refusal ≡ Refusal.NotAHill → 2 ≤ D.facts.size device.old }
    ensures told { TellsRefusal D.facts path.entry device.old device.new refusal result }
    ensures of_hill { IsOfHill result }
{
    match refusal {
        Refusal::NotAHill => without_hill(path, device),
        refusal => refused_at(path, refusal),
    }
}

/// What is reported about a device that holds no hill. If the device fails, nothing is said of the old format.
pub(crate) fn without_hill<'f, D: Device>(path: &'f str, device: &mut D) -> Trouble<'f>
    requires { 2 ≤ D.facts.size device.old }
    ensures told { TellsNoHill D.facts path.entry device.old device.new result }
    ensures of_hill { IsOfHill result }
{
    match holds_old_hill(device) {
        Ok(true) => told_at(path, Fault::OldHill, Reason::OldHill),
        Ok(false) | Err(_) => refused_at(path, Refusal::NotAHill),
    }
}

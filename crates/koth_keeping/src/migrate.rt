//! The command `migrate`: the hill in a file of the old format, moved to a new file.

ghost use Rattle.std.specs.Prelude.{◌≡◌, false};
ghost use Rattle.koth_keeping.specs.{Answers.{Answers, SaysLine}, Migration.{MigratesTo, file_of, migrated_line}};

use crate::answer::answer_of;
use hill_file::{Existing, HillFile, Sharing, TryLock};
use hill_store::{MigrateSide, Store, sectors_for};
use koth_commands::trouble::Trouble;
use koth_commands::{Answer, Status};
use koth_files::{refused_at, require_old_hill, unopened_at};
use koth_words::Migration;
use sector_disk::Device;
use std::alloc::Allocator;
use std::rt::Files;
use war_types::range_of;

/// Warriors that a hill holds at most, whatever its settings are.
const GREATEST_CAPACITY: u16 = range_of!(capacity, greatest);

/// Moves the hill in a file of the old format to another file, in the new one. Nothing is written to the old file. If
/// that has no header of the old format, no new file is made. Else the new one is made if it is missing, large enough
/// for any hill. That is done before the old one is read whole, and the file stays if the hill is not moved. A new file
/// that holds anything but zeros is refused as `Occupied` and stays as it is.
pub fn perform_migrate<'m, R: Files, A: Allocator + Copy>(
    rt: &R,
    alloc: A,
    files: Migration<'m>,
) -> Result<Answer<A>, Trouble<'m>>
where
    R::File: TryLock,
    ensures { Answers (SaysLine migrated_line) result }
{
    if let Err(trouble) = require_old_hill(rt, alloc, files.old) {
        return Err(trouble);
    }
    let old = match HillFile::open(rt, alloc, files.old, Sharing::Kept) {
        Ok(device) => device,
        Err(fault) => return Err(unopened_at(files.old, fault)),
    };
    let sectors = sectors_for(GREATEST_CAPACITY);
    let new = match HillFile::make(rt, alloc, files.new, sectors, Existing::Kept) {
        Ok(device) => device,
        Err(fault) => return Err(unopened_at(files.new, fault)),
    };
    migrate_kept(alloc, files, old, new)
}

/// Moves the hill in one file to another. Nothing is written to the old one, as its device has no doubt.
fn migrate_kept<'m, 'f, R: Files, A: Allocator + Copy>(
    alloc: A,
    files: Migration<'m>,
    old: HillFile<'f, R>,
    new: HillFile<'f, R>,
) -> Result<Answer<A>, Trouble<'m>>
where
    R::File: TryLock,
    requires undoubted { old.doubt ≡ false }
    ensures { Answers (SaysLine migrated_line) result }
{
    migrate_between(alloc, files, old, new)
}

/// Moves the hill on one device to another. The devices are those of these files.
fn migrate_between<'m, D: Device + Drop, A: Allocator + Copy>(
    alloc: A,
    files: Migration<'m>,
    old: D,
    new: D,
) -> Result<Answer<A>, Trouble<'m>>
    ensures moved { MigratesTo D.facts files.entry old new result }
    ensures answers { Answers (SaysLine migrated_line) result }
{
    let answer = answer_of(alloc, Status::Done, b"MIGRATED\n", b"")?;
    match Store::migrate(alloc, old, new) {
        Ok(_) => Ok(answer),
        Err((_old, _new, fault)) => Err(refused_at(file_of(files, fault.side), fault.refusal)),
    }
}

/// The file of a side of a move.
fn file_of<'m>(files: Migration<'m>, side: MigrateSide) -> &'m str
    ensures { result ≡ file_of files.entry side }
{
    match side {
        MigrateSide::Old => files.old,
        MigrateSide::New => files.new,
    }
}

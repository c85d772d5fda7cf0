//! The device over a hill's file.

use crate::calls::{Call, Step};
use crate::deeds::Deed;
use crate::trials::{Trial, Way, try_at};
use crate::watched::NEVER;
use hill_file::{Existing, OpenFault, Sharing};
use std::io::ErrorKind;

/// Three sectors are made of a file that is kept as it is if it holds something, or that is overwritten.
const KEPT: Way = Way::MakeHill(3, Existing::Kept);

const OVERWRITTEN: Way = Way::MakeHill(3, Existing::Overwritten);

/// The file is opened with its lock, or so that it stays as it is, or beside others.
const ALONE: Way = Way::OpenHill(Sharing::Alone);

const AS_IT_IS: Way = Way::OpenHill(Sharing::Kept);

const SHARED: Way = Way::OpenHill(Sharing::Shared);

/// The file is opened, locked, measured twice, read to its end, its three sectors written, the file and then its folder synced; and looked for and its
/// headers read at once, by the file and by the device.
const MADE: [u8; 16] = *b"okmmrswwwyoymrmr";

/// One that is overwritten is emptied when its lock is held, and not before. It isn't read.
const EMPTIED: [u8; 15] = *b"okmlswwwyoymrmr";

/// A file that is kept is read before it is written to, and stays as long as it is.
static MAKING: [Trial; 11] = [
    Trial::At(Deed::Remove),
    Trial::Got(KEPT, Ok(3), &MADE),
    Trial::Got(OVERWRITTEN, Ok(3), &EMPTIED),
    Trial::At(Deed::Write(b"a letter")),
    Trial::Got(KEPT, Err(OpenFault::Occupied), b"okmmr"),
    Trial::Got(OVERWRITTEN, Ok(3), &EMPTIED),
    Trial::At(Deed::Holds(&[[0; 512]; 3])),
    Trial::At(Deed::SetLength(9001)),
    Trial::Got(KEPT, Ok(17), b"okmmrrrrswwwyoymrmr"),
    Trial::Got(OVERWRITTEN, Ok(3), &EMPTIED),
    Trial::At(Deed::Holds(&[[0; 512]; 3])),
];

/// Each call fails, and none makes a device then. A disk is full in mid-stream: what was written is zeros, so the next call makes the file.
static STOPPING: [Trial; 8] = [
    Trial::At(Deed::Remove),
    Trial::StoppedAtEach(KEPT, &MADE),
    Trial::StoppedAtEach(OVERWRITTEN, &EMPTIED),
    Trial::Stopped(KEPT, 7, &MADE),
    Trial::At(Deed::Holds(&[[0; 512]])),
    Trial::Got(KEPT, Ok(3), b"okmmrrswwwyoymrmr"),
    Trial::At(Deed::Holds(&[[0; 512]; 3])),
    Trial::At(Deed::Remove),
];

#[test]
fn making_looks_before_it_writes_and_stops_where_a_call_fails(rt: HostRuntime) {
    try_at(&rt, "hill-made", &MAKING);
    try_at(&rt, "hill-made", &STOPPING);
}

/// What is reported at a path with nothing, at that of a folder, and at that of what no hill can lie in.
const MISSING: Result<u32, OpenFault> = Err(OpenFault::Failed(ErrorKind::NotFound));

const FOLDER: Result<u32, OpenFault> = Err(OpenFault::Failed(ErrorKind::IsADirectory));

const UNFIT: Result<u32, OpenFault> = Err(OpenFault::Failed(ErrorKind::InvalidInput));

/// The file is opened, looked for and measured. If it is for this program alone, it is locked first, and its headers are read. Then the folder
/// of a hill that may be changed is opened, too.
static OPENING: [Trial; 13] = [
    Trial::At(Deed::Remove),
    Trial::Got(ALONE, MISSING, b"o"),
    Trial::Got(SHARED, MISSING, b"o"),
    Trial::Got(KEPT, Ok(3), &MADE),
    Trial::Got(ALONE, Ok(3), b"okmrmr"),
    Trial::Got(AS_IT_IS, Ok(3), b"okmmr"),
    Trial::Got(SHARED, Ok(3), b"omm"),
    Trial::At(Deed::Write(b"KOTHHIL2")),
    Trial::At(Deed::SetLength(1536)),
    Trial::Got(ALONE, Ok(3), b"okmromr"),
    Trial::Stopped(ALONE, 4, b"okmromr"),
    Trial::Got(AS_IT_IS, Ok(3), b"okmmr"),
    Trial::At(Deed::Remove),
];

/// A folder is there.
static IN_FOLDER: [Trial; 3] = [
    Trial::Got(ALONE, FOLDER, b"o"),
    Trial::Got(KEPT, FOLDER, b"o"),
    Trial::Got(OVERWRITTEN, FOLDER, b"o"),
];

/// No hill can lie there.
static IN_NO_FILE: [Trial; 2] = [
    Trial::Got(KEPT, UNFIT, b"okm"),
    Trial::Got(OVERWRITTEN, UNFIT, b"okm"),
];

#[test]
fn opening_locks_the_file(rt: HostRuntime) {
    try_at(&rt, "hill-opened", &OPENING);
    try_at(&rt, ".", &IN_FOLDER);
    try_at(&rt, "/dev/zero", &IN_NO_FILE);
}

/// A look measures the file, and reads both headers. A write is a look and a write of the sector.
const WRITTEN: [u8; 3] = *b"mrw";

/// A sync is a sync and a look.
const SYNCED: [u8; 3] = *b"ymr";

/// If the device doubts, each of three sectors is read, and written after a look, before the sync.
const DOUBTED: [u8; 15] = *b"rmrwrmrwrmrwymr";

/// If its name may not have been synced, the folder is, before the file.
const NAMED: [u8; 16] = *b"rmrwrmrwrmrwyymr";

/// Each call of a device, and each of the file's in it that fails. A read needs no look. After a sync that failed the next one writes each sector
/// again, and nothing else that fails makes it do so.
const EACH: [Step<'static>; 12] = [
    Step::Fails(Call::Write(1, 7), &WRITTEN, 0, 3),
    Step::Done(Call::Write(1, 7), &WRITTEN),
    Step::Fails(Call::Read(1, 7, 7), b"r", 0, 1),
    Step::Done(Call::Read(1, 7, 7), b"r"),
    Step::Fails(Call::Sync, &SYNCED, 1, 3),
    Step::Done(Call::Sync, &SYNCED),
    Step::Fails(Call::Sync, &SYNCED, 0, 1),
    Step::Fails(Call::Write(1, 7), &WRITTEN, 0, 3),
    Step::Done(Call::Write(1, 7), &WRITTEN),
    Step::Fails(Call::Sync, &DOUBTED, 0, 13),
    Step::Done(Call::Sync, &DOUBTED),
    Step::Done(Call::Sync, &SYNCED),
];

/// The file that is made holds no hill, so the device doesn't doubt.
static CALLED: [Trial; 3] = [
    Trial::At(Deed::Remove),
    Trial::On(KEPT, &EACH),
    Trial::At(Deed::Remove),
];

#[test]
fn each_call_of_a_hill(rt: HostRuntime) {
    try_at(&rt, "hill-calls", &CALLED);
}

/// The first sync writes each sector again, and syncs the folder. That is done once.
const IN_DOUBT: [Step<'static>; 4] = [
    Step::Fails(Call::Sync, &NAMED, 0, 13),
    Step::Fails(Call::Sync, &NAMED, 13, 14),
    Step::Done(Call::Sync, &DOUBTED),
    Step::Done(Call::Sync, &SYNCED),
];

/// What was written before it stays.
const WRITTEN_IN_DOUBT: [Step<'static>; 6] = [
    Step::Done(Call::Write(1, 7), &WRITTEN),
    Step::Done(Call::Write(2, 3), &WRITTEN),
    Step::Done(Call::Sync, &NAMED),
    Step::Done(Call::Sync, &SYNCED),
    Step::Done(Call::Read(1, 7, 7), b"r"),
    Step::Done(Call::Read(2, 3, 3), b"r"),
];

/// No sync writes anything again.
const SURE: [Step<'static>; 2] = [
    Step::Done(Call::Sync, &SYNCED),
    Step::Done(Call::Sync, &SYNCED),
];

/// No call writes anything.
const UNCHANGED: [Step<'static>; 3] = [
    Step::Done(Call::Sync, &SYNCED),
    Step::Fault(Call::Write(2, 7), b"mr"),
    Step::Done(Call::Sync, &SYNCED),
];

/// A hill that may be changed is written again at its first sync, and nothing else is.
static SYNCS: [Trial; 16] = [
    Trial::At(Deed::Write(b"KOTHHIL2")),
    Trial::At(Deed::SetLength(1536)),
    Trial::On(ALONE, &IN_DOUBT),
    Trial::At(Deed::Write(b"KOTHHIL2")),
    Trial::At(Deed::SetLength(1536)),
    Trial::On(ALONE, &WRITTEN_IN_DOUBT),
    Trial::At(Deed::Write(b"KOTHHIL2")),
    Trial::At(Deed::SetLength(1536)),
    Trial::On(AS_IT_IS, &UNCHANGED),
    Trial::At(Deed::Write(b"KOTHHIL1")),
    Trial::At(Deed::SetLength(1536)),
    Trial::On(ALONE, &SURE),
    Trial::At(Deed::Write(b"KOTHHIL")),
    Trial::At(Deed::SetLength(1536)),
    Trial::On(ALONE, &SURE),
    Trial::At(Deed::Remove),
];

#[test]
fn syncs_of_a_hill(rt: HostRuntime) {
    try_at(&rt, "hill-synced", &SYNCS);
}

/// The next look notices another program. The one exception is the write right after a look: one to the second sector leaves what the other program
/// wrote, and a sync of a device in doubt writes over it.
static BESIDE: [Trial; 4] = [
    Trial::Beside(b"KOTHHIL1", Call::Write(1, 7), &WRITTEN, 2, 9),
    Trial::Beside(b"KOTHHIL1", Call::Sync, &SYNCED, NEVER, 9),
    Trial::Beside(b"KOTHHIL2", Call::Sync, &NAMED, 3, b'K'),
    Trial::At(Deed::Remove),
];

#[test]
fn another_writer_at_each_call(rt: HostRuntime) {
    try_at(&rt, "hill-beside", &BESIDE);
}

/// One byte is missing of the last sector of three, and later other bytes are copied into the file: a write and a sync fail, and the bytes stay. A
/// file that others made a sector longer holds its sectors. When the first headers are back, the calls are done.
const CHANGED: [Step<'static>; 15] = [
    Step::At(Deed::SetLength(1535)),
    Step::Fault(Call::Sync, &SYNCED),
    Step::Fault(Call::Write(2, 7), b"mr"),
    Step::At(Deed::SetLength(2048)),
    Step::Done(Call::Write(2, 7), &WRITTEN),
    Step::Done(Call::Sync, &SYNCED),
    Step::Done(Call::Read(2, 7, 7), b"r"),
    Step::At(Deed::Write(&[6; 1536])),
    Step::Fault(Call::Write(2, 7), b"mr"),
    Step::Fault(Call::Sync, &SYNCED),
    Step::Done(Call::Read(2, 6, 6), b"r"),
    Step::At(Deed::Holds(&[[6; 512]; 3])),
    Step::At(Deed::Write(&[0; 1536])),
    Step::Done(Call::Write(1, 7), &WRITTEN),
    Step::Done(Call::Sync, &SYNCED),
];

/// A file that is shared is only read, and its headers may change.
const READ: [Step<'static>; 6] = [
    Step::Done(Call::Sync, b"ym"),
    Step::At(Deed::Write(&[6; 1536])),
    Step::Done(Call::Sync, b"ym"),
    Step::Done(Call::Read(0, 6, 6), b"r"),
    Step::Fault(Call::Write(2, 7), b"m"),
    Step::At(Deed::Holds(&[[6; 512]; 3])),
];

/// A file of one sector has no room for headers. That is noticed at its end.
const SMALL: [Step<'static>; 2] = [
    Step::Fault(Call::Write(0, 7), b"mrr"),
    Step::Fault(Call::Sync, b"ymrr"),
];

/// Each on a new file.
static CHANGES: [Trial; 8] = [
    Trial::At(Deed::Remove),
    Trial::On(KEPT, &CHANGED),
    Trial::At(Deed::Remove),
    Trial::Got(KEPT, Ok(3), &MADE),
    Trial::On(SHARED, &READ),
    Trial::At(Deed::Remove),
    Trial::On(Way::MakeHill(1, Existing::Kept), &SMALL),
    Trial::At(Deed::Remove),
];

#[test]
fn files_that_others_change(rt: HostRuntime) {
    try_at(&rt, "hill-changed", &CHANGES);
}

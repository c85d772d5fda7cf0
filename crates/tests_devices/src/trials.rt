//! What is tried at the path of a file: how devices come to be over it by which calls, and what is done on them.

use crate::calls::{Call, Step, ended, expect_same, take_on};
use crate::deeds::{Deed, act, begins_with, remove, set_length, write_file};
use crate::watched::{Calls, NEVER, WatchedFiles};
use hill_file::{Existing, HillFile, OpenFault, Sharing};
use sector_disk::{Device, Fault, FileDevice, FileFault};
use std::cell::Cell;
use std::fmt::Debug;
use std::fs::File;
use std::io::ErrorKind;
use std::process::Abort;
use std::rt::Files;

/// What is reported if a call fails. A device over a file that is no hill's tells no reason, and has this one here.
pub(crate) const FAILED: Result<u32, OpenFault> = Err(OpenFault::Failed(ErrorKind::Other));

/// How a device comes to be over a file.
#[derive(Clone, Copy)]
pub(crate) enum Way {
    /// The file is opened.
    OpenFile,
    /// It is made with this number of sectors.
    MakeFile(u32),
    /// The file of a hill is opened.
    OpenHill(Sharing),
    /// It is made with this number of sectors.
    MakeHill(u32, Existing),
}

/// What is tried at a path, and what has to come of it.
#[derive(Clone, Copy)]
pub(crate) enum Trial {
    /// A device comes to be with these sectors, or none for this reason, by these calls.
    Got(Way, Result<u32, OpenFault>, &'static [u8]),
    /// None comes to be, since of these calls the one of this number fails, which is the last then.
    Stopped(Way, usize, &'static [u8]),
    /// The same for each of these calls in turn. Whatever file is left is removed.
    StoppedAtEach(Way, &'static [u8]),
    /// These steps are taken on a device.
    On(Way, &'static [Step<'static>]),
    /// A file of three sectors begins with these bytes, and has zeros after them. Another program fills the first sector with nines before each of the
    /// calls by which this call of a device is done. It is a fault then, and the nines stay. Only before the call of this number it is done, and the file
    /// begins with this byte.
    Beside(&'static [u8], Call, &'static [u8], usize, u8),
    /// Something is done to the file, or looked at.
    At(Deed<'static>),
}

/// The sectors of a device that was made. It is dropped.
fn sectors_of<D: Device + Drop, E>(made: Result<D, E>) -> Result<u32, E> {
    match made {
        Ok(device) => Ok(device.sectors()),
        Err(fault) => Err(fault),
    }
}

/// The same, with the fault of a hill's file.
fn of_file(found: Result<u32, FileFault>) -> Result<u32, OpenFault> {
    match found {
        Ok(sectors) => Ok(sectors),
        Err(FileFault::Memory) => Err(OpenFault::Memory),
        Err(FileFault::Failed) => FAILED,
    }
}

/// The sectors of the device that comes to be, or why there is none.
fn got<R: Files<File = File> + AllocGlobal>(
    on: &WatchedFiles<'_, R>,
    path: &str,
    way: Way,
) -> Result<u32, OpenFault> {
    let alloc = on.files.alloc();
    match way {
        Way::OpenFile => of_file(sectors_of(FileDevice::open(on, path))),
        Way::MakeFile(sectors) => {
            of_file(sectors_of(FileDevice::make(on, alloc, path, sectors)))
        }
        Way::OpenHill(sharing) => sectors_of(HillFile::open(on, alloc, path, sharing)),
        Way::MakeHill(sectors, existing) => {
            sectors_of(HillFile::make(on, alloc, path, sectors, existing))
        }
    }
}

/// This comes of it after these calls. The one of this number fails.
fn expect_got<R: Files<File = File> + AllocGlobal + Abort>(
    on: &WatchedFiles<'_, R>,
    path: &str,
    way: Way,
    fails_at: usize,
    due: Result<u32, OpenFault>,
    letters: Option<&[u8]>,
) {
    on.calls.set(Calls::none(fails_at, NEVER));
    let found = got(on, path, way);
    let so_far = on.calls.get();
    let made = so_far.letters.get(..so_far.count);
    expect_same(
        on.files,
        &(found, made),
        &(due, letters),
        "the sectors, and calls",
    );
}

/// None comes to be, since of these calls the one of this number fails.
fn expect_stopped<R: Files<File = File> + AllocGlobal + Abort>(
    on: &WatchedFiles<'_, R>,
    path: &str,
    way: Way,
    fails_at: usize,
    letters: &[u8],
) {
    let until = letters.get(..fails_at.saturating_add(1));
    expect_got(on, path, way, fails_at, FAILED, until);
}

/// The same for each of these calls in turn.
fn stop_at_each<R: Files<File = File> + AllocGlobal + Abort>(
    on: &WatchedFiles<'_, R>,
    path: &str,
    way: Way,
    letters: &[u8],
) {
    for fails_at in 0..letters.len() {
        expect_stopped(on, path, way, fails_at, letters);
        remove(on.files, path);
    }
}

/// These steps are taken on the device that comes to be.
fn step_on<R: Files<File = File> + AllocGlobal + Abort>(
    on: &WatchedFiles<'_, R>,
    path: &str,
    way: Way,
    steps: &[Step<'_>],
) {
    let alloc = on.files.alloc();
    match way {
        Way::OpenFile => take_on(on, FileDevice::open(on, path), path, steps),
        Way::MakeFile(sectors) => {
            take_on(on, FileDevice::make(on, alloc, path, sectors), path, steps);
        }
        Way::OpenHill(sharing) => take_on(
            on,
            HillFile::open(on, alloc, path, sharing),
            path,
            steps,
        ),
        Way::MakeHill(sectors, existing) => {
            let made = HillFile::make(on, alloc, path, sectors, existing);
            take_on(on, made, path, steps);
        }
    }
}

/// How a call of a device ends if another program writes to the file before the call of this number.
fn ended_beside<D: Device + Drop, E: Debug, R: Abort>(
    on: &WatchedFiles<'_, R>,
    opened: Result<D, E>,
    call: Call,
    filled_at: usize,
) -> Result<(), Fault> {
    let mut device = opened.expect(on.files, "it is opened");
    on.calls.set(Calls::none(NEVER, filled_at));
    let answer = ended(&mut device, call);
    drop(device);
    answer
}

/// It ends so then, and the file begins with this byte.
fn expect_beside<R: Files<File = File> + AllocGlobal + Abort>(
    on: &WatchedFiles<'_, R>,
    path: &str,
    call: Call,
    filled_at: usize,
    due: Result<(), Fault>,
    first: u8,
) {
    let opened = HillFile::open(on, on.files.alloc(), path, Sharing::Alone);
    let answer = ended_beside(on, opened, call, filled_at);
    let begins = begins_with(on.files, path, first);
    expect_same(
        on.files,
        &(filled_at, answer, begins),
        &(filled_at, due, true),
        "how it ends beside another program",
    );
}

/// Another program writes before each of the calls by which a call of a device is done.
fn fill_before_each<R: Files<File = File> + AllocGlobal + Abort>(
    on: &WatchedFiles<'_, R>,
    path: &str,
    begins: &[u8],
    call: Call,
    count: usize,
    window: usize,
    first: u8,
) {
    for filled_at in 0..count {
        write_file(on.files, path, begins);
        set_length(on.files, path, 1536);
        if filled_at == window {
            expect_beside(on, path, call, filled_at, Ok(()), first);
        } else {
            expect_beside(on, path, call, filled_at, Err(Fault), 9);
        }
    }
}

/// This trial comes out so.
fn tried<R: Files<File = File> + AllocGlobal + Abort>(
    on: &WatchedFiles<'_, R>,
    path: &str,
    trial: Trial,
) {
    on.calls.set(Calls::none(NEVER, NEVER));
    match trial {
        Trial::Got(way, due, letters) => expect_got(on, path, way, NEVER, due, Some(letters)),
        Trial::Stopped(way, fails_at, letters) => expect_stopped(on, path, way, fails_at, letters),
        Trial::StoppedAtEach(way, letters) => stop_at_each(on, path, way, letters),
        Trial::On(way, steps) => step_on(on, path, way, steps),
        Trial::Beside(begins, call, letters, window, first) => {
            fill_before_each(on, path, begins, call, letters.len(), window, first);
        }
        Trial::At(deed) => act(on.files, path, deed),
    }
}

/// These trials come out so, one after another.
fn try_all<R: Files<File = File> + AllocGlobal + Abort>(
    on: &WatchedFiles<'_, R>,
    path: &str,
    trials: &[Trial],
) {
    for trial in trials {
        tried(on, path, *trial);
    }
}

/// These trials are made at a path, over files that write their calls down.
pub(crate) fn try_at<R: Files<File = File> + AllocGlobal + Abort>(
    rt: &R,
    path: &str,
    trials: &[Trial],
) {
    let calls = Cell::new(Calls::none(NEVER, NEVER));
    let on = WatchedFiles {
        files: rt,
        calls: &calls,
    };
    try_all(&on, path, trials);
}

//! The calls of devices, as the tests make them, each with the calls that reach its file. These functions have no clauses, so the proof of a test
//! carries none of a call's along. A call that doesn't come out as it has to ends the test at once, so a test has no way out of its middle.

use crate::deeds::{Deed, act};
use crate::watched::{Calls, NEVER, WatchedFiles};
use sector_disk::{Device, Fault};
use std::fmt::Debug;
use std::process::Abort;
use std::rt::Files;

/// What was found is what is due. If it isn't, the note says what was looked at.
pub(crate) fn expect_same<T: PartialEq + Debug>(rt: &impl Abort, found: &T, due: &T, note: &str) {
    assert_eq!(rt; *found, *due, "{note}");
}

/// A call of a device.
#[derive(Clone, Copy)]
pub(crate) enum Call {
    /// A byte is written all over a sector.
    Write(u32, u8),
    /// A sector is read: it is one byte all over, and another at its end.
    Read(u32, u8, u8),
    /// What was written is synced.
    Sync,
}

/// A call of a device, and what has to come of it.
#[derive(Clone, Copy)]
pub(crate) enum Step<'s> {
    /// It is done, by these calls of the file.
    Done(Call, &'s [u8]),
    /// It is a fault, after these calls.
    Fault(Call, &'s [u8]),
    /// It makes these calls, and is a fault if one fails of the first number up to the second. Each of them does in turn.
    Fails(Call, &'s [u8], usize, usize),
    /// Something is done to the file, or looked at.
    At(Deed<'s>),
}

/// How a write ends. A sector that there isn't is a fault that is not counted.
fn written<D: Device>(device: &mut D, n: u32, byte: u8) -> Result<(), Fault> {
    if n >= device.sectors() {
        return Err(Fault);
    }
    device.write(n, &[byte; 512])
}

/// How a read ends. Another content is a fault that is not counted, as is a sector that there isn't. A test never fills one with 255.
fn read<D: Device>(device: &mut D, n: u32, byte: u8, last: u8) -> Result<(), Fault> {
    if n >= device.sectors() {
        return Err(Fault);
    }
    let mut expected = [byte; 512];
    expected[511] = last;
    let mut content = [255; 512];
    device.read(n, &mut content)?;
    if content == expected {
        Ok(())
    } else {
        Err(Fault)
    }
}

/// How a call of a device ends.
pub(crate) fn ended<D: Device>(device: &mut D, call: Call) -> Result<(), Fault> {
    match call {
        Call::Write(n, byte) => written(device, n, byte),
        Call::Read(n, byte, last) => read(device, n, byte, last),
        Call::Sync => device.sync(),
    }
}

/// A call of a device ends so after these calls of the file. The one of this number fails. A fault is counted.
fn expect_ended<D: Device, R: Abort>(
    on: &WatchedFiles<'_, R>,
    device: &mut D,
    call: Call,
    fails_at: usize,
    answer: Result<(), Fault>,
    letters: Option<&[u8]>,
) {
    let faults = device.faults().saturating_add(u64::from(answer.is_err()));
    on.calls.set(Calls::none(fails_at, NEVER));
    let found = ended(device, call);
    let so_far = on.calls.get();
    let made = so_far.letters.get(..so_far.count);
    expect_same(
        on.files,
        &(found, device.faults(), made),
        &(answer, faults, letters),
        "how it ends, its faults, and calls",
    );
}

/// A call of a device is a fault if one of its calls of the file fails. Each does in turn, from one up to another.
fn expect_faults<D: Device, R: Abort>(
    on: &WatchedFiles<'_, R>,
    device: &mut D,
    call: Call,
    letters: &[u8],
    first: usize,
    end: usize,
) {
    for fails_at in first..end {
        let until = letters.get(..fails_at.saturating_add(1));
        expect_ended(on, device, call, fails_at, Err(Fault), until);
    }
}

/// This step comes out so.
fn take<D: Device, R: Files + AllocGlobal + Abort>(
    on: &WatchedFiles<'_, R>,
    device: &mut D,
    path: &str,
    step: Step<'_>,
) {
    match step {
        Step::Done(call, letters) => {
            expect_ended(on, device, call, NEVER, Ok(()), Some(letters));
        }
        Step::Fault(call, letters) => {
            expect_ended(on, device, call, NEVER, Err(Fault), Some(letters));
        }
        Step::Fails(call, letters, first, end) => {
            expect_faults(on, device, call, letters, first, end);
        }
        Step::At(deed) => act(on.files, path, deed),
    }
}

/// These steps are taken on a device over the file at a path, one after another.
pub(crate) fn take_all<D: Device, R: Files + AllocGlobal + Abort>(
    on: &WatchedFiles<'_, R>,
    device: &mut D,
    path: &str,
    steps: &[Step<'_>],
) {
    for step in steps {
        take(on, device, path, *step);
    }
}

/// The same on a device that has to be there, and is dropped then.
pub(crate) fn take_on<D: Device + Drop, E: Debug, R: Files + AllocGlobal + Abort>(
    on: &WatchedFiles<'_, R>,
    got: Result<D, E>,
    path: &str,
    steps: &[Step<'_>],
) {
    let mut device = got.expect(on.files, "there is a device");
    take_all(on, &mut device, path, steps);
    drop(device);
}

//! A hill's file as a device within another, and what is told of faults.

use crate::calls::{Call, Step, expect_same, take_all};
use crate::deeds::Deed;
use crate::watched::{Calls, NEVER, WatchedFiles};
use hill_file::{Existing, HillFile, OpenFault};
use sector_disk::{Device, FileFault, FuseDevice, FuseKind};
use std::cell::Cell;
use std::fmt::{Debug, Display};
use std::fs::File;
use std::io::ErrorKind;
use std::process::Abort;
use std::rt::Files;

/// It is a device as others are, within one whose third call fails and makes none of its own.
static WITHIN: [Step<'static>; 5] = [
    Step::Done(Call::Write(0, 1), b"mrw"),
    Step::Done(Call::Sync, b"ymr"),
    Step::Fault(Call::Sync, b""),
    Step::At(Deed::Remove),
    Step::Fault(Call::Sync, b"ym"),
];

/// One of the two faults of `WITHIN` is the device's own.
fn fail_within<D: Device + Drop, E: Debug, R: Files + AllocGlobal + Abort>(
    on: &WatchedFiles<'_, R>,
    made: Result<D, E>,
    path: &str,
) {
    let made = made.expect(on.files, "it is made");
    let mut device = FuseDevice::new(made, 2, FuseKind::FailLost);
    take_all(on, &mut device, path, &WITHIN);
    let inner = device.into_inner();
    expect_same(on.files, &inner.faults(), &1, "faults");
    drop(inner);
}

/// The same of a new hill's file.
fn fail_hill<R: Files<File = File> + AllocGlobal + Abort>(rt: &R, path: &str) {
    let calls = Cell::new(Calls::none(NEVER, NEVER));
    let on = WatchedFiles {
        files: rt,
        calls: &calls,
    };
    let hill = HillFile::make(&on, rt.alloc(), path, 3, Existing::Overwritten);
    fail_within(&on, hill, path);
}

#[test]
fn within_another_device(rt: HostRuntime) {
    fail_hill(&rt, "hill-within");
}

/// A value is shown as this text.
fn expect_text<D: Display>(rt: &(impl Abort + AllocGlobal), told: &D, text: &str) {
    let shown = format!(in rt.alloc(); "{told}").expect(rt, "there is memory");
    expect_same(rt, &shown.as_str(), &text, "a text");
    drop(shown);
}

/// What is told of a fault.
#[test]
fn texts_of_faults(rt: HostRuntime) {
    let failed = OpenFault::Failed(ErrorKind::NotFound);
    expect_text(&rt, &OpenFault::Memory, "no memory for the file");
    expect_text(&rt, &OpenFault::Locked, "another program works on the file");
    expect_text(&rt, &OpenFault::Occupied, "the file holds something else");
    expect_text(&rt, &failed, "the file failed: entity not found");
    expect_text(&rt, &FileFault::Memory, "no memory for the file");
    expect_text(&rt, &FileFault::Failed, "the file failed");
}

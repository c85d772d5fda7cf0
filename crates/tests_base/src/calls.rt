//! The calls of devices in memory, as the tests make them. These functions have no clauses, so the proof of a test
//! carries none of a call's along. A call that is to be done and isn't ends the test at once, so a test has no way
//! out of its middle.

use crate::expecting::{expect, expect_count};
use sector_disk::{Device, MemoryDevice};
use std::alloc::Global;
use std::process::Abort;
use tests_fixtures::Refusing;

/// A device that takes its memory of this. No test has a device in memory of another type.
pub(crate) type Counted<'m> = MemoryDevice<&'m Refusing<Global>>;

/// A call of a device, and what has to come of it.
#[derive(Clone, Copy)]
pub(crate) enum Step {
    /// The number of its sectors.
    Sectors(u32),
    /// A byte is written all over a sector.
    Write(u32, u8),
    /// A sector reads as one byte all over.
    Read(u32, u8),
    /// A sync is done.
    Sync,
    /// A sync that fails, and counts one more than this number of faults.
    Refused(u64),
}

/// A new device after these calls, without a refusal.
pub(crate) fn made<'m>(
    rt: &impl Abort,
    memory: &'m Refusing<Global>,
    sectors: u32,
    steps: &[Step],
) -> Counted<'m> {
    let mut device = MemoryDevice::new(memory, sectors).expect(rt, "there is memory");
    take_all(rt, &mut device, steps);
    device
}

/// These calls of a device come out so, one after another.
pub(crate) fn take_all<D: Device>(rt: &impl Abort, device: &mut D, steps: &[Step]) {
    for step in steps {
        take(rt, device, *step);
    }
}

/// This call of a device comes out so.
fn take<D: Device>(rt: &impl Abort, device: &mut D, step: Step) {
    match step {
        Step::Sectors(count) => expect_sectors(rt, device, count),
        Step::Write(n, byte) => write(rt, device, n, byte),
        Step::Read(n, byte) => expect_read(rt, device, n, byte),
        Step::Sync => expect(rt, device.sync().is_ok(), "a sync"),
        Step::Refused(faults) => expect_refused(rt, device, faults),
    }
}

/// The device has `count` sectors.
pub(crate) fn expect_sectors<D: Device>(rt: &impl Abort, device: &D, count: u32) {
    expect_count(rt, u64::from(device.sectors()), u64::from(count), "sectors");
}

/// The device has counted `count` faults.
pub(crate) fn expect_faults<D: Device>(rt: &impl Abort, device: &D, count: u64) {
    expect_count(rt, device.faults(), count, "faults");
}

/// Writes one byte all over a sector.
pub(crate) fn write<D: Device>(rt: &impl Abort, device: &mut D, n: u32, byte: u8) {
    assert!(rt; n < device.sectors());
    expect(rt, device.write(n, &[byte; 512]).is_ok(), "a write");
}

/// Makes one byte all over a sector its stable content.
pub(crate) fn set(rt: &impl Abort, device: &mut Counted<'_>, n: u32, byte: u8) {
    assert!(rt; n < device.sectors());
    device.set(n, &[byte; 512]);
}

/// A sync that fails, and counts one more than `faults`.
fn expect_refused<D: Device>(rt: &impl Abort, device: &mut D, faults: u64) {
    expect_faults(rt, device, faults);
    expect(rt, device.sync().is_err(), "a sync that fails");
    expect_faults(rt, device, faults.saturating_add(1));
}

/// What a sector holds, which a test never fills with 255.
pub(crate) fn read<D: Device>(rt: &impl Abort, device: &mut D, n: u32) -> [u8; 512] {
    let mut content = [255; 512];
    assert!(rt; n < device.sectors());
    expect(rt, device.read(n, &mut content).is_ok(), "a read");
    content
}

/// A sector reads as one byte all over.
pub(crate) fn expect_read<D: Device>(rt: &impl Abort, device: &mut D, n: u32, byte: u8) {
    let content = read(rt, device, n);
    expect(rt, content == [byte; 512], "what is read");
}

/// What a stop with these numbers leaves of a device.
pub(crate) fn stopped<'m>(rt: &impl Abort, device: &Counted<'m>, choice: &[u32]) -> Counted<'m> {
    device.stopped(choice).expect(rt, "there is memory")
}

/// A sector reads as one byte all over in what a stop leaves of a device.
pub(crate) fn expect_stopped(
    rt: &impl Abort,
    device: &Counted<'_>,
    choice: &[u32],
    n: u32,
    byte: u8,
) {
    let mut left = stopped(rt, device, choice);
    expect_read(rt, &mut left, n, byte);
}

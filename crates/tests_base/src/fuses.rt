//! Each kind of fuse, at each number of calls, over a script of eight calls.

use crate::calls::{Counted, expect_faults, expect_sectors, made, read, stopped};
use crate::expecting::expect;
use sector_disk::{Device, Fault, FuseDevice, FuseKind};
use std::alloc::Global;
use std::process::Abort;
use tests_fixtures::Refusing;

/// Calls in the script.
const CALLS: u64 = 8;

/// One call of the script.
fn call<D: Device>(device: &mut D, step: u64) -> Result<(), Fault> {
    if device.sectors() < 2 {
        return Err(Fault);
    }
    match step {
        0 => device.write(0, &[1; 512]),
        1 => device.read(0, &mut [0; 512]),
        2 => device.sync(),
        3 => device.write(1, &[2; 512]),
        4 => device.write(0, &[3; 512]),
        5 => device.read(1, &mut [0; 512]),
        6 => device.sync(),
        _ => device.write(1, &[4; 512]),
    }
}

/// Whether a call reaches the device within.
fn is_made(kind: FuseKind, calls: u64, step: u64) -> bool {
    match kind {
        FuseKind::Stop => step < calls,
        FuseKind::FailLost => step != calls,
        FuseKind::FailKept => true,
    }
}

/// Whether a call is answered by a fault.
fn is_failed(kind: FuseKind, calls: u64, step: u64) -> bool {
    match kind {
        FuseKind::Stop => step >= calls,
        FuseKind::FailLost | FuseKind::FailKept => step == calls,
    }
}

/// The first bytes of both sectors, of the image that keeps all and of the one that loses all.
fn images(rt: &impl Abort, device: &Counted<'_>) -> [u8; 4] {
    let mut kept = stopped(rt, device, &[9, 9]);
    let mut lost = stopped(rt, device, &[]);
    [
        read(rt, &mut kept, 0)[0],
        read(rt, &mut kept, 1)[0],
        read(rt, &mut lost, 0)[0],
        read(rt, &mut lost, 1)[0],
    ]
}

/// A call of the script on a fuse: it is answered as the fuse's kind says, and one that failed is counted.
fn expect_call<D: Device>(rt: &impl Abort, fused: &mut D, kind: FuseKind, calls: u64, step: u64) {
    let failed = is_failed(kind, calls, step);
    let faults = fused.faults().saturating_add(u64::from(failed));
    let is_err = call(fused, step).is_err();
    let is_right = is_err == failed && fused.faults() == faults;
    assert!(rt; is_right, "{kind:?} of {calls}, call {step}");
}

/// The script on a fuse, beside the calls that are to be made on a sound device.
fn run_both<F: Device, D: Device>(
    rt: &impl Abort,
    fused: &mut F,
    sound: &mut D,
    kind: FuseKind,
    calls: u64,
) {
    expect_faults(rt, fused, 0);
    for step in 0..CALLS {
        expect_call(rt, fused, kind, calls, step);
        if is_made(kind, calls, step) {
            expect(rt, call(sound, step).is_ok(), "a call");
        }
    }
    expect_sectors(rt, fused, 2);
}

/// The device within a fuse met no fault, and has the images of a sound one. Answers them.
fn expect_sound(rt: &impl Abort, inner: &Counted<'_>, sound: &Counted<'_>) -> [u8; 4] {
    expect_faults(rt, inner, 0);
    let left = images(rt, inner);
    expect(rt, left == images(rt, sound), "images of a fuse");
    left
}

/// The script on a fuse over a device in memory. Answers the images that it leaves.
fn run(rt: &impl Abort, memory: &Refusing<Global>, kind: FuseKind, calls: u64) -> [u8; 4] {
    let mut fused = FuseDevice::new(made(rt, memory, 2, &[]), calls, kind);
    let mut sound = made(rt, memory, 2, &[]);
    run_both(rt, &mut fused, &mut sound, kind, calls);
    let inner = fused.into_inner();
    let left = expect_sound(rt, &inner, &sound);
    drop(inner);
    drop(sound);
    left
}

/// The kinds of fuses, each with the images after one at the second sync, counted by hand: kept all, lost all.
static KINDS: [(FuseKind, [u8; 4]); 3] = [
    (FuseKind::Stop, [3, 2, 1, 0]),
    (FuseKind::FailLost, [3, 4, 1, 0]),
    (FuseKind::FailKept, [3, 4, 3, 2]),
];

/// The calls of the script up to the second sync.
const BEFORE_SYNC: u64 = 6;

/// Fuses of this kind at each number of calls. One at the second sync leaves these images.
fn run_each(rt: &impl Abort, memory: &Refusing<Global>, kind: FuseKind, due: [u8; 4]) {
    for calls in 0..=CALLS {
        let left = run(rt, memory, kind, calls);
        expect(rt, calls != BEFORE_SYNC || left == due, "a failed sync");
    }
}

#[test]
fn each_fuse_at_each_number_of_calls(rt: HostRuntime) {
    let memory = Refusing::new(rt.alloc());
    for (kind, due) in &KINDS {
        run_each(&rt, &memory, *kind, *due);
    }
    drop(memory);
}

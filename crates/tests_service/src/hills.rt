//! Hills of two, each over a device in memory that may fail. Tests know memory and devices by `TestMemory`.

ghost use Rattle.std.specs.Prelude.{◌≡◌, false, IfSome};

use crate::compare::expect_same;
use hill_store::Store;
use sector_disk::FuseKind;
use std::process::Abort;
use tests_stores::{SECTORS, SMALL, TestMemory, close, count_rows, opened};
use war_types::Settings;

/// A device that passes this number of calls never fails in a test.
pub(crate) const NEVER: u64 = u64::MAX;

/// Where a hill takes its memory from, where its device does, after how many calls that fails once, and how.
#[derive(Clone, Copy)]
pub(crate) struct Ground<M> {
    pub(crate) memory: M,
    pub(crate) of_device: M,
    pub(crate) calls: u64,
    pub(crate) kind: FuseKind,
}

/// Of one memory for both, and of a device that fails once, after `calls` calls.
pub(crate) fn failing<M: TestMemory>(memory: M, calls: u64, kind: FuseKind) -> Ground<M> {
    Ground {
        memory,
        of_device: memory,
        calls,
        kind,
    }
}

/// A hill without warriors, if there is memory. Creating it makes five calls of the device.
pub(crate) fn hill_on<M: TestMemory>(ground: Ground<M>) -> Option<Store<M::Device, M>>
    ensures { IfSome result (λ store. store.reopen ≡ false) }
{
    let settings = Settings::new(SMALL).ok()?;
    let disk = ground.of_device.blank(SECTORS)?;
    let device = ground.of_device.failing(disk, ground.calls, ground.kind);
    match Store::create(ground.memory, device, settings) {
        Ok(store) => Some(store),
        Err(_) => None,
    }
}

/// A hill without warriors.
pub(crate) fn empty_hill<M: TestMemory>(rt: &impl Abort, ground: Ground<M>) -> Store<M::Device, M> {
    hill_on(ground).expect(rt, "a hill is created")
}

/// The hill that is opened on a hill's device.
pub(crate) fn reopened<M: TestMemory>(
    rt: &impl Abort,
    memory: M,
    store: Store<M::Device, M>,
) -> Store<M::Device, M> {
    opened(memory, close(store)).expect(rt, "it opens")
}

/// `count` warriors are on a hill.
pub(crate) fn expect_count<M: TestMemory>(
    rt: &impl Abort,
    store: &Store<M::Device, M>,
    count: usize,
) {
    expect_same(rt, &count_rows(store).ok(), &Some(count), "warriors");
}

//! The calls of a store.

use hill_store::{MigrateFault, Refusal, Reply, Store};
use koth_hill::Row;
use sector_disk::Device;
use std::alloc::{AllocError, Allocator};
use war_types::{RawSettings, Settings, SettingsFault};

/// Settings that are accepted, or why they are not.
pub fn settings_from(raw: RawSettings) -> Result<Settings, SettingsFault> {
    Settings::new(raw)
}

/// `Store::create`.
pub fn create<D: Device + Drop, A: Allocator + Copy>(
    alloc: A,
    device: D,
    settings: Settings,
) -> Result<Store<D, A>, (D, Refusal)> {
    Store::create(alloc, device, settings)
}

/// `Store::open`.
pub fn open<D: Device + Drop, A: Allocator + Copy>(
    alloc: A,
    device: D,
) -> Result<Store<D, A>, (D, Refusal)> {
    Store::open(alloc, device)
}

/// `Store::migrate`.
pub fn migrate<O: Device + Drop, D: Device + Drop, A: Allocator + Copy>(
    alloc: A,
    old: O,
    new: D,
) -> Result<(O, Store<D, A>), (O, D, MigrateFault)> {
    Store::migrate(alloc, old, new)
}

/// `Store::submit`.
pub fn submit<D: Device, A: Allocator + Copy>(store: &mut Store<D, A>, source: &[u8]) -> Reply {
    store.submit(source)
}

/// `Store::submit_all`.
pub fn submit_all<D: Device, A: Allocator + Copy>(
    store: &mut Store<D, A>,
    sources: &[&[u8]],
) -> Result<Vec<Reply, A>, AllocError> {
    store.submit_all(sources)
}

/// `Store::copy_to`.
pub fn copy<D: Device, N: Device, A: Allocator>(
    store: &Store<D, A>,
    new: &mut N,
) -> Result<(), Refusal> {
    store.copy_to(new)
}

/// The reply to a source that is tried, if there is one.
pub fn tried_reply<D: Device, A: Allocator + Copy>(
    store: &mut Store<D, A>,
    source: &[u8],
    steps: Option<u64>,
) -> Option<Reply> {
    match store.try_source(source, steps) {
        Some(Ok(verdict)) => Some(Reply::judged(&verdict)),
        Some(Err(reply)) => Some(reply),
        None => None,
    }
}

/// `Store::rows`.
pub(crate) fn rows_of<D: Device, A: Allocator + Copy>(
    store: &Store<D, A>,
) -> Result<Vec<Row<'_>, A>, AllocError> {
    store.rows()
}

/// `Store::audit`.
pub fn audit<D: Device, A: Allocator + Copy>(store: &mut Store<D, A>) -> bool {
    store.audit()
}

/// `Store::close`.
pub fn close<D: Device + Drop, A: Allocator + Copy>(store: Store<D, A>) -> D {
    store.close()
}

//! What a store is expected to answer, and what a device to hold.

use crate::hills::content_of;
use hill_store::Store;
use sector_disk::Device;
use std::alloc::Allocator;
use std::fmt::Debug;
use std::process::Abort;
use tests_stores::{Disk, Numbers, audit, count_rows, holds, other_row};

/// What was found is what is due. If it isn't, the note says what was looked at.
pub(crate) fn expect_same<T: PartialEq + Debug>(rt: &impl Abort, found: &T, due: &T, note: &str) {
    assert!(rt; *found == *due, "{note}: {found:?}, not {due:?}");
}

/// The rows of the table are these, and the results that the store keeps are those of the matches.
pub(crate) fn expect_table<D: Device, A: Allocator + Copy>(
    rt: &impl Abort,
    store: &mut Store<D, A>,
    rows: &[Numbers],
) {
    let found = (audit(store), count_rows(store).ok(), other_row(store, rows));
    let due = (true, Some(rows.len()), None);
    expect_same(rt, &found, &due, "an audit and a table");
}

/// The hill of two: both have two points, and the one that came first is one older.
static TWO_ROWS: [Numbers; 2] = [(1, 2, 1), (2, 2, 0)];

/// The rows of a store are those of the hill of two, and its results those of the matches. It is dropped.
pub(crate) fn expect_the_rows<D: Device + Drop, A: Allocator + Copy>(
    rt: &impl Abort,
    mut store: Store<D, A>,
) {
    expect_table(rt, &mut store, &TWO_ROWS);
    drop(store);
}

/// These disks hold the same. They are dropped.
pub(crate) fn expect_equal<D: Disk>(rt: &impl Abort, mut disk: D, mut other: D) {
    expect_same(rt, &other.sectors(), &disk.sectors(), "sectors");
    for n in 0..disk.sectors() {
        let content = content_of(rt, &mut disk, n);
        let found = holds(&mut other, n, &content);
        expect_same(rt, &(n, found), &(n, Ok(true)), "a sector");
    }
    drop(disk);
    drop(other);
}

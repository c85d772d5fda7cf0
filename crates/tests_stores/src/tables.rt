//! What a store answers.

use crate::calls::rows_of;
use hill_store::Store;
use koth_hill::Row;
use sector_disk::Device;
use std::alloc::{AllocError, Allocator};

/// The answer to a warrior that is on the hill.
#[macro_export]
macro_rules! placed {
    ($entry:expr, $rank:expr, $score:expr) => { $crate::Reply::Placed { entry: $entry, rank: $rank, score: $score } };
}

/// The answer to a warrior that fell at once.
#[macro_export]
macro_rules! fell {
    ($entry:expr, $score:expr) => { $crate::Reply::Fell { entry: $entry, score: $score } };
}

/// A row as three numbers: entry, score and age.
pub type Numbers = (u64, u32, u64);

fn numbers_of(row: &Row<'_>) -> Numbers {
    (row.entry, row.score, row.age)
}

/// The row at a place of the table, from 0 on.
pub fn numbers_at<D: Device, A: Allocator + Copy>(
    store: &Store<D, A>,
    place: usize,
) -> Result<Option<Numbers>, AllocError> {
    let rows = rows_of(store)?;
    let found = match rows.get(place) {
        Some(row) => Some(numbers_of(row)),
        None => None,
    };
    drop(rows);
    Ok(found)
}

/// The row at a place of the table, if there is one, and memory for the table.
pub fn row_at<D: Device, A: Allocator + Copy>(
    store: &Store<D, A>,
    place: usize,
) -> Option<Numbers> {
    match numbers_at(store, place) {
        Ok(row) => row,
        Err(AllocError) => None,
    }
}

/// How many rows the table has.
pub fn count_rows<D: Device, A: Allocator + Copy>(
    store: &Store<D, A>,
) -> Result<usize, AllocError> {
    let rows = rows_of(store)?;
    let count = rows.len();
    drop(rows);
    Ok(count)
}

/// The first place of the table that has another row than these, and the row there.
pub fn other_row<D: Device, A: Allocator + Copy>(
    store: &Store<D, A>,
    rows: &[Numbers],
) -> Option<(usize, Option<Numbers>)> {
    for (place, row) in rows.iter().enumerate() {
        let found = row_at(store, place);
        if found != Some(*row) {
            return Some((place, found));
        }
    }
    None
}

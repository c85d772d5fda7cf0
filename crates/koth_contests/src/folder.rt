//! The names of sources in a folder.

use crate::paths::path_in;
use koth_commands::{Reason, fill, reason_of};
use std::alloc::{AllocError, Allocator};
use std::rt::Files;

/// Bytes that are read of the names in a folder, each with a zero at its end. A folder whose names fill them isn't
/// taken.
const NAMES_LIMIT: usize = 1_048_576;

/// The names in a folder, each with a zero after it.
pub(crate) fn names_in<R: Files, A: Allocator + Copy>(
    rt: &R,
    alloc: A,
    folder: &str,
) -> Result<Vec<u8, A>, Reason> {
    // A slash at the end follows a link to a folder.
    match path_in(alloc, folder, "") {
        Ok(path) => names_at(rt, alloc, path.as_str()),
        Err(AllocError) => Err(Reason::Memory),
    }
}

/// The names in the folder of this path, each with a zero after it.
fn names_at<R: Files, A: Allocator>(rt: &R, alloc: A, path: &str) -> Result<Vec<u8, A>, Reason> {
    let Ok(mut names) = Vec::from_elem(alloc, 0, NAMES_LIMIT) else {
        return Err(Reason::Memory);
    };
    match read_names(rt, path, names.as_mut_slice()) {
        Ok(count) => {
            names.truncate(count);
            Ok(names)
        }
        Err(reason) => Err(reason),
    }
}

/// Reads the names in the folder of this path. How many bytes they have is the answer, which is less than there is room
/// for.
fn read_names<R: Files>(rt: &R, path: &str, names: &mut [u8]) -> Result<usize, Reason> {
    let mut open = match rt.open_dir(path) {
        Ok(open) => open,
        Err(error) => return Err(reason_of(error.kind())),
    };
    match fill(&mut open, names) {
        Ok(count) if count < NAMES_LIMIT => Ok(count),
        Ok(_) => Err(Reason::Size),
        Err(fault) => Err(fault.reason),
    }
}

/// The names that end with `.red` or `.RED`, and don't begin with a point.
pub(crate) fn sources_among<'n, A: Allocator + Copy>(
    alloc: A,
    names: &'n [u8],
) -> Result<Vec<&'n [u8], A>, AllocError> {
    let mut found = Vec::new(alloc);
    for name in names.split(|byte| *byte == 0) {
        if is_source(name) {
            found.push(name)?;
        }
    }
    Ok(found)
}

/// Whether a file of this name is taken for a source.
fn is_source(name: &[u8]) -> bool {
    (name.ends_with(b".red") || name.ends_with(b".RED")) && !name.starts_with(b".")
}

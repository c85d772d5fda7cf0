//! The file of a page. A new one is written next to it, and takes its place when it is whole.

use koth_commands::{Reason, reason_of, write_whole};
use std::alloc::{AllocError, Allocator};
use std::fs;
use std::fs::{File, OpenFile};
use std::io::ErrorKind;
use std::rt::Files;

/// Writes a page to the file at this path. A plain file that is there, or none, is replaced by a new file, which is
/// written under the name with `.new` after it first. If that fails, what is there stays. What is no plain file, as a
/// link or a FIFO, is written to.
pub(crate) fn write_page<R: Files, A: Allocator + Copy>(
    rt: &R,
    alloc: A,
    path: &str,
    page: &[u8],
) -> Result<(), Reason> {
    if !is_replaced(rt, path) {
        return match fs::write(rt, path, page) {
            Ok(()) => Ok(()),
            Err(error) => Err(reason_of(error.kind())),
        };
    }
    match format!(in alloc; "{}.new", path) {
        Ok(new) => replace(rt, path, new.as_str(), page),
        Err(AllocError) => Err(Reason::Memory),
    }
}

/// Whether a plain file is at this path, or nothing.
fn is_replaced<R: Files>(rt: &R, path: &str) -> bool {
    match rt.symlink_metadata(path) {
        Ok(found) => found.is_file(),
        Err(error) => error.kind() == ErrorKind::NotFound,
    }
}

/// Makes a file of the name `new` with this page, and puts it at this path. If that fails, the new file is removed.
fn replace<R: Files>(rt: &R, path: &str, new: &str, page: &[u8]) -> Result<(), Reason> {
    let mut options = File::options();
    options.write(true).create_new(true);
    let made = match options.open(rt, new) {
        Ok(file) => written(rt, path, file, page),
        Err(error) => return Err(reason_of(error.kind())),
    };
    let placed = match made {
        Ok(()) => renamed(rt, new, path),
        Err(reason) => Err(reason),
    };
    if placed.is_err() {
        let _ = rt.remove_file(new);
    }
    placed
}

/// Writes a page to a new file, and makes it reach the disk. Who may read it are those who may read the file at this
/// path, if there is one and the system lets it be so.
fn written<R: Files>(rt: &R, path: &str, file: R::File, page: &[u8]) -> Result<(), Reason> {
    let mut file = file;
    if let Err(fault) = write_whole(&mut file, page) {
        return Err(fault.reason);
    }
    if let Ok(found) = rt.symlink_metadata(path) {
        let _ = file.set_permissions(found.permissions());
    }
    match file.sync_data() {
        Ok(()) => Ok(()),
        Err(error) => Err(reason_of(error.kind())),
    }
}

fn renamed<R: Files>(rt: &R, from: &str, to: &str) -> Result<(), Reason> {
    match rt.rename(from, to) {
        Ok(()) => Ok(()),
        Err(error) => Err(reason_of(error.kind())),
    }
}

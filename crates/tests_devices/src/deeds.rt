//! What is done to a file, and what it has to hold.

use crate::calls::expect_same;
use std::fs;
use std::fs::{File, OpenFile};
use std::process::Abort;
use std::rt::Files;

/// What is done at a path, or has to hold there.
#[derive(Clone, Copy)]
pub(crate) enum Deed<'d> {
    /// Whatever file is there is removed.
    Remove,
    /// A file of these bytes is written.
    Write(&'d [u8]),
    /// The file gets this length, and ends with zeros if it was shorter.
    SetLength(u64),
    /// The file holds these sectors.
    Holds(&'d [[u8; 512]]),
}

/// This is done at a path, or looked at.
pub(crate) fn act(rt: &(impl Files + AllocGlobal + Abort), path: &str, deed: Deed<'_>) {
    match deed {
        Deed::Remove => remove(rt, path),
        Deed::Write(bytes) => write_file(rt, path, bytes),
        Deed::SetLength(bytes) => set_length(rt, path, bytes),
        Deed::Holds(sectors) => expect_bytes(rt, path, sectors.as_flattened()),
    }
}

/// No file is at the path from now on.
pub(crate) fn remove(rt: &impl Files, path: &str) {
    let _ = fs::remove_file(rt, path);
}

/// Writes a file of these bytes.
pub(crate) fn write_file(rt: &(impl Files + Abort), path: &str, bytes: &[u8]) {
    fs::write(rt, path, bytes).expect(rt, "the file is written");
}

/// The file has `bytes` bytes from now on.
pub(crate) fn set_length(rt: &(impl Files + Abort), path: &str, bytes: u64) {
    let file = File::options()
        .write(true)
        .open(rt, path)
        .expect(rt, "the file is opened");
    file.set_len(bytes).expect(rt, "its length is set");
}

/// The bytes of a file.
fn bytes_of(rt: &(impl Files + AllocGlobal + Abort), path: &str) -> Vec<u8> {
    fs::read(rt, path).expect(rt, "the file is read")
}

/// A file holds these bytes.
fn expect_bytes(rt: &(impl Files + AllocGlobal + Abort), path: &str, due: &[u8]) {
    let bytes = bytes_of(rt, path);
    expect_same(rt, &bytes.as_slice(), &due, "what the file holds");
    drop(bytes);
}

/// Whether a file begins with this byte.
pub(crate) fn begins_with(rt: &(impl Files + AllocGlobal + Abort), path: &str, byte: u8) -> bool {
    let bytes = bytes_of(rt, path);
    let begins = bytes.as_slice().starts_with(&[byte]);
    drop(bytes);
    begins
}

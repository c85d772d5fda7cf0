//! The folder of a file, which is synced so that the file's name reaches the disk.

use std::alloc::Allocator;
use std::fs::Files;
use std::path::Path;
use std::{fs, io};

/// Opens the folder of this path. It takes no memory.
pub(crate) fn open_folder<R: Files>(rt: &R, path: Path<'_>) -> io::Result<R::File> {
    let folder = match path.parent() {
        Some(folder) if !folder.as_os_str().is_empty() => folder,
        _ => Path::new("."),
    };
    fs::open(rt, folder)
}

/// Opens the folder of the file to which this path leads. If the path is a link, that is the folder of the file itself.
pub(crate) fn own_folder<R: Files, A: Allocator>(
    rt: &R,
    alloc: A,
    path: &str,
) -> io::Result<R::File> {
    let own = rt.canonicalize(alloc, path)?;
    open_folder(rt, own.as_path())
}

//! A file system that writes down which calls reach a file, in place of the real one, and hands them on to it. One of the calls fails, or another
//! program writes to the file before it. Calls that no device makes are left out if the trait permits that, and are `Unsupported`.

use hill_file::{OpenFault, TryLock};
use std::alloc::Allocator;
use std::cell::Cell;
use std::fs::{Files, Metadata, OpenFile, OpenOptions};
use std::io;
use std::io::{ErrorKind, Read, Seek, SeekFrom, Write};
use std::os::unix::fs::FileExt;
use std::path::PathBuf;

/// Calls that are written down at most.
const MOST: usize = 64;

/// The number of a call that is not made.
pub(crate) const NEVER: usize = usize::MAX;

/// The calls on files since the last time that they were forgotten, each a letter: `o`pened, loc`k`ed, `m`easured, `l`engthened, `s`ought,
/// `r`ead, `w`ritten whole, written in `p`art, s`y`nced. Calls are counted from 0.
#[derive(Clone, Copy)]
pub(crate) struct Calls {
    pub letters: [u8; MOST],
    pub count: usize,
    /// The number of the call that fails.
    fails_at: usize,
    /// Another program fills the first sector with nines before the call of this number.
    filled_at: usize,
}

impl Calls {
    /// No call so far. From now on these are the numbers of the call that fails and of the one before which another program writes.
    pub(crate) fn none(fails_at: usize, filled_at: usize) -> Calls {
        Calls {
            letters: [b' '; MOST],
            count: 0,
            fails_at,
            filled_at,
        }
    }
}

/// Files, watched.
#[derive(Drop)]
pub(crate) struct WatchedFiles<'c, R> {
    pub files: &'c R,
    pub calls: &'c Cell<Calls>,
}

/// A file, watched.
#[derive(Drop)]
pub(crate) struct WatchedFile<'c, F> {
    file: F,
    calls: &'c Cell<Calls>,
}

/// Writes a call down, and fails if it is the one that is to fail.
fn note(calls: &Cell<Calls>, letter: u8) -> io::Result<()> {
    let mut so_far = calls.get();
    let number = so_far.count;
    if number < MOST {
        so_far.letters[number] = letter;
        so_far.count = number + 1;
    }
    calls.set(so_far);
    if number == so_far.fails_at {
        return Err(io::Error::from(ErrorKind::Other));
    }
    Ok(())
}

impl<F: FileExt> WatchedFile<'_, F> {
    /// The other program writes if it is its turn, and the call is written down. If this is a folder, it writes before the next call.
    fn begin(&self, letter: u8) -> io::Result<()> {
        let mut so_far = self.calls.get();
        if so_far.count == so_far.filled_at && self.file.write_at(&[9; 512], 0).is_err() {
            so_far.filled_at = so_far.count.saturating_add(1);
            self.calls.set(so_far);
        }
        note(self.calls, letter)
    }
}

impl<'c, R: Files> Files for WatchedFiles<'c, R>
where
    R::File: FileExt,
{
    type File = WatchedFile<'c, R::File>;

    type Dir = R::Dir;

    fn open_file(&self, how: &OpenOptions, path: &str) -> io::Result<WatchedFile<'c, R::File>> {
        note(self.calls, b'o')?;
        let file = self.files.open_file(how, path)?;
        Ok(WatchedFile {
            file,
            calls: self.calls,
        })
    }

    fn open_dir(&self, path: &str) -> io::Result<R::Dir> {
        self.files.open_dir(path)
    }

    fn metadata(&self, path: &str) -> io::Result<Metadata> {
        self.files.metadata(path)
    }

    fn symlink_metadata(&self, path: &str) -> io::Result<Metadata> {
        self.files.symlink_metadata(path)
    }

    fn copy(&self, from: &str, to: &str) -> io::Result<u64> {
        self.files.copy(from, to)
    }

    fn rename(&self, from: &str, to: &str) -> io::Result<()> {
        self.files.rename(from, to)
    }

    fn remove_file(&self, path: &str) -> io::Result<()> {
        self.files.remove_file(path)
    }

    fn create_dir(&self, path: &str) -> io::Result<()> {
        self.files.create_dir(path)
    }

    fn remove_dir(&self, path: &str) -> io::Result<()> {
        self.files.remove_dir(path)
    }

    fn remove_dir_all<B: Allocator>(&self, alloc: B, path: &str) -> io::Result<()> {
        self.files.remove_dir_all(alloc, path)
    }

    fn canonicalize<B: Allocator>(&self, alloc: B, path: &str) -> io::Result<PathBuf<B>> {
        self.files.canonicalize(alloc, path)
    }
}

impl<F: OpenFile + FileExt> OpenFile for WatchedFile<'_, F> {
    fn metadata(&self) -> io::Result<Metadata> {
        self.begin(b'm')?;
        self.file.metadata()
    }

    fn set_len(&self, size: u64) -> io::Result<()> {
        self.begin(b'l')?;
        self.file.set_len(size)
    }

    fn sync_all(&self) -> io::Result<()> {
        self.begin(b'y')?;
        self.file.sync_all()
    }

    fn sync_data(&self) -> io::Result<()> {
        self.file.sync_data()
    }
}

impl<F: Read + FileExt> Read for WatchedFile<'_, F> {
    fn read(&mut self, buf: &mut [u8]) -> io::Result<usize> {
        self.begin(b'r')?;
        self.file.read(buf)
    }
}

impl<F: Write + FileExt> Write for WatchedFile<'_, F> {
    fn write(&mut self, buf: &[u8]) -> io::Result<usize> {
        self.begin(letter_of(buf))?;
        self.file.write(buf)
    }

    fn flush(&mut self) -> io::Result<()> {
        self.file.flush()
    }
}

/// How a write of these bytes is written down.
fn letter_of(bytes: &[u8]) -> u8 {
    if bytes.len() == 512 { b'w' } else { b'p' }
}

impl<F: FileExt> FileExt for WatchedFile<'_, F> {
    fn read_at(&self, buf: &mut [u8], offset: u64) -> io::Result<usize> {
        self.begin(b'r')?;
        self.file.read_at(buf, offset)
    }

    fn write_at(&self, buf: &[u8], offset: u64) -> io::Result<usize> {
        self.begin(letter_of(buf))?;
        self.file.write_at(buf, offset)
    }
}

impl<F: Seek + FileExt> Seek for WatchedFile<'_, F> {
    fn seek(&mut self, to: SeekFrom) -> io::Result<u64> {
        self.begin(b's')?;
        self.file.seek(to)
    }
}

impl<F: TryLock> TryLock for WatchedFile<'_, F> {
    fn lock_now(&self) -> Result<(), OpenFault> {
        self.begin(b'k')?;
        self.file.lock_now()
    }
}

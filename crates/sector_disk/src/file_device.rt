//! The device over a file.

ghost use Rattle.std.specs.Prelude.{◌≡◌, ◌≤◌, IfOk};
ghost use Rattle.sector_disk.specs.File.{IsFileServed};

use crate::device::{Device, Fault};
use std::alloc::Allocator;
use std::fs::{File, Files, OpenFile};
use std::io::{ErrorKind, Read, Seek, SeekFrom, Write};
use std::marker::Model;
use std::path::{AsPath, Path};
use std::{fs, io};
use thiserror::Error;

/// Bytes of a sector.
pub const SECTOR_BYTES: u64 = 512;

/// Why a file gives no device.
#[derive(Clone, Copy, Debug, PartialEq, Eq, Error)]
pub enum FileFault {
    /// The system had no memory for the file.
    #[error("no memory for the file")]
    Memory,
    /// The file can't be opened, measured or extended.
    #[error("the file failed")]
    Failed,
}

impl From<io::Error> for FileFault {
    ghost use Rattle.{std.specs.IoError.error_kind, sector_disk.specs.FileFault.fault_of};

    ghost from_gives = { λ error fault. fault ≡ fault_of (error_kind error) };

    fn from(error: io::Error) -> FileFault {
        match error.kind() {
            ErrorKind::OutOfMemory => FileFault::Memory,
            _ => FileFault::Failed,
        }
    }
}

/// A device over a file: the n-th 512 bytes of the file are sector n, and bytes after the last whole sector belong to none.
///
/// Nothing is claimed of what a file holds, so this device is not lawful in any contract. Whoever uses one has to assume that it is.
/// What holds of every device holds of it: its faults are counted, and the number of its sectors stays.
#[derive(Drop)]
pub struct FileDevice<F> {
    file: F,
    sectors: u32,
    faults: u64,
}

impl<F> Model for FileDevice<F> {
    ghost use Rattle.sector_disk.specs.File.{FileState};

    ghost Value = { FileState };

    ghost view = { λ d. record { sectors = d.sectors; faults = d.faults } };
}

impl<F: Read + Write + Seek + OpenFile + Drop> FileDevice<F> {
    /// A device over the file at this path. It has the whole sectors of the file, maybe none, and at most 2³² - 1. It has counted no
    /// fault. `Failed` if the file is missing or can't be read and written, as a folder.
    pub fn open<R: Files<File = F>, P: AsPath>(
        files: &R,
        path: P,
    ) -> Result<FileDevice<F>, FileFault>
        ensures faults { IfOk result (λ device. device.faults ≡ 0) }
    {
        let mut options = File::options();
        options.read(true).write(true);
        FileDevice::over(options.open(files, path)?, 0)
    }

    /// A device of at least `sectors` sectors over the file at this path. It has counted no fault.
    ///
    /// A missing file is created, and one with fewer whole sectors is extended with zeros. None is shortened. The file's length and its
    /// name have reached the disk, also if an earlier call that made it was cut short. If the path is a link, the folder of the file
    /// itself is synced. `Failed` as `open` says, and if the file can't be created or extended.
    pub fn make<R: Files<File = F>, A: Allocator, P: AsPath>(
        files: &R,
        alloc: A,
        path: P,
        sectors: u32,
    ) -> Result<FileDevice<F>, FileFault>
        ensures enough { IfOk result (λ device. sectors ≤ device.sectors) }
        ensures faults { IfOk result (λ device. device.faults ≡ 0) }
    {
        let mut options = File::options();
        options.read(true).write(true).create(true);
        let path = path.path_text();
        let file = options.open(files, path)?;
        extend(&file, sectors)?;
        sync_name(files, alloc, path)?;
        FileDevice::over(file, sectors)
    }

    /// The device over this file. `Failed` if the file has fewer than `least` sectors.
    fn over(file: F, least: u32) -> Result<FileDevice<F>, FileFault>
        ensures enough { IfOk result (λ device. least ≤ device.sectors) }
        ensures faults { IfOk result (λ device. device.faults ≡ 0) }
    {
        let sectors = whole_sectors(&file)?;
        if sectors < least {
            return Err(FileFault::Failed);
        }
        Ok(FileDevice {
            file,
            sectors,
            faults: 0,
        })
    }
}

impl<F> FileDevice<F> {
    /// Counts the fault of a call that failed.
    fn counted(&mut self, answer: io::Result<()>) -> Result<(), Fault>
        ensures { IsFileServed self.old self.new result }
    {
        match answer {
            Ok(()) => Ok(()),
            Err(_) => {
                self.faults = self.faults.saturating_add(1);
                Err(Fault)
            }
        }
    }
}

impl<F: Read + Write + Seek + OpenFile> Device for FileDevice<F> {
    ghost use Rattle.sector_disk.specs.File.{file_facts};

    ghost facts = { file_facts };

    fn sectors(&self) -> u32 {
        self.sectors
    }

    fn faults(&self) -> u64 {
        self.faults
    }

    fn read(&mut self, n: u32, to: &mut [u8; 512]) -> Result<(), Fault> {
        let answer = read_sector(&mut self.file, n, to);
        self.counted(answer)
    }

    fn write(&mut self, n: u32, from: &[u8; 512]) -> Result<(), Fault> {
        let answer = write_sector(&mut self.file, n, from);
        self.counted(answer)
    }

    /// What was written has reached the disk, as far as the system says.
    fn sync(&mut self) -> Result<(), Fault> {
        let answer = self.file.sync_all();
        self.counted(answer)
    }
}

/// Gives a file the length of this many sectors, if it is shorter, and makes its length reach the disk.
fn extend<F: OpenFile>(file: &F, sectors: u32) -> Result<(), FileFault> {
    if whole_sectors(file)? < sectors {
        file.set_len(u64::from(sectors) * SECTOR_BYTES)?;
    }
    Ok(file.sync_all()?)
}

/// The number of whole sectors of a file, or 2³² - 1 if it has more.
fn whole_sectors<F: OpenFile>(file: &F) -> Result<u32, FileFault> {
    let sectors = file.metadata()?.len() / SECTOR_BYTES;
    Ok(u32::try_from(sectors).unwrap_or(u32::MAX))
}

fn read_sector<F: Read + Seek>(file: &mut F, n: u32, to: &mut [u8; 512]) -> io::Result<()> {
    file.seek(SeekFrom::Start(u64::from(n) * SECTOR_BYTES))?;
    file.read_exact(to)
}

fn write_sector<F: Write + Seek>(file: &mut F, n: u32, from: &[u8; 512]) -> io::Result<()> {
    file.seek(SeekFrom::Start(u64::from(n) * SECTOR_BYTES))?;
    file.write_all(from)
}

/// Makes the name of the file at this path reach the disk. If the path is a link, that is its name in the folder of the file itself.
pub fn sync_name<R: Files, A: Allocator>(files: &R, alloc: A, path: &str) -> io::Result<()> {
    let own = files.canonicalize(alloc, path)?;
    sync_folder(files, own.as_path())
}

/// Makes the names in the folder of this path reach the disk.
fn sync_folder<R: Files>(files: &R, path: Path<'_>) -> io::Result<()> {
    let folder = match path.parent() {
        Some(folder) if !folder.as_os_str().is_empty() => folder,
        _ => Path::new("."),
    };
    fs::open(files, folder)?.sync_all()
}

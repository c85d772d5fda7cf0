//! The sectors of a hill's file that is opened to be read alone.
#![tactic(auto, using(crate::proofs::OfSystem::fault_of_system))]

ghost use Rattle.std.specs.Prelude.{◌≡◌, IfErr, IfOk};
ghost use Rattle.{sector_disk.specs.File.IsFileServed, hill_file.specs.OpenFault.IsOfSystem};

use crate::source::Source;
use hill_file::OpenFault;
use sector_disk::{Fault, SECTOR_BYTES};
use std::fs::{File, Files, Metadata, OpenFile};
use std::io;
use std::io::{ErrorKind, Read, Seek, SeekFrom};
use std::marker::Model;

/// A file that is opened to be read alone: the n-th 512 bytes are sector n. Its lock is neither taken nor looked at,
/// and it is never written or synced.
///
/// Nothing is claimed of what a file holds, so this source is lawful in no contract.
#[derive(Drop)]
pub struct FileSource<F> {
    file: F,
    sectors: u32,
    faults: u64,
}

impl<F> Model for FileSource<F> {
    ghost use Rattle.sector_disk.specs.File.{FileState};

    ghost Value = { FileState };

    ghost view = { λ source. record { sectors = source.sectors; faults = source.faults } };
}

impl<F: OpenFile + Drop> FileSource<F> {
    /// The source over the file at this path. It has the whole sectors that the file has now, and at most 2³² - 1. It
    /// has counted no fault.
    ///
    /// `Failed` with `IsADirectory` if the path leads to a folder, with `InvalidInput` if it leads to what is no file,
    /// as a pipe, and else with the system's reason, as `NotFound` or `PermissionDenied`. `Memory` if the system had
    /// none. A pipe isn't opened, since that would wait for its writer.
    pub fn open<R: Files<File = F>>(rt: &R, path: &str) -> Result<FileSource<F>, OpenFault>
        ensures faults { IfOk result (λ source. source.faults ≡ 0) }
        ensures system { IfErr result IsOfSystem }
    {
        require_file(&rt.metadata(path)?)?;
        let mut options = File::options();
        options.read(true);
        let file = options.open(rt, path)?;
        let sectors = file.metadata()?.len() / SECTOR_BYTES;
        Ok(FileSource {
            file,
            sectors: u32::try_from(sectors).unwrap_or(u32::MAX),
            faults: 0,
        })
    }
}

impl<F> FileSource<F> {
    /// Counts the fault of a read that failed.
    fn counted(&mut self, answer: io::Result<()>) -> Result<(), Fault>
        ensures { IsFileServed self.old self.new result }
    {
        match answer {
            Ok(()) => Ok(()),
            Err(_) => {
                self.faults = self.faults.saturating_add(1);
                Err(Fault)
            }
        }
    }
}

impl<F: Read + Seek> Source for FileSource<F> {
    ghost use Rattle.sector_disk.specs.File.{file_facts};

    ghost facts = { file_facts };

    fn sectors(&self) -> u32 {
        self.sectors
    }

    fn read(&mut self, n: u32, to: &mut [u8; 512]) -> Result<(), Fault> {
        let answer = read_sector(&mut self.file, n, to);
        self.counted(answer)
    }
}

/// That this is a file's.
fn require_file(metadata: &Metadata) -> Result<(), OpenFault>
    ensures { IfErr result IsOfSystem }
{
    if metadata.is_file() {
        return Ok(());
    }
    if metadata.is_dir() {
        return Err(OpenFault::Failed(ErrorKind::IsADirectory));
    }
    Err(OpenFault::Failed(ErrorKind::InvalidInput))
}

fn read_sector<F: Read + Seek>(file: &mut F, n: u32, to: &mut [u8; 512]) -> io::Result<()> {
    file.seek(SeekFrom::Start(u64::from(n) * SECTOR_BYTES))?;
    file.read_exact(to)
}

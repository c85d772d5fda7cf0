//! The file that a path leads to.

ghost use Rattle.std.specs.Prelude.{◌≡◌, ⊤, Ok, false, IfErr, IsErr};
ghost use Rattle.hill_file.specs.{Done.{Looks, Writes}, OpenFault.IsOfSystem};

use crate::lock::TryLock;
use crate::open_fault::OpenFault;
use crate::sector_file::{Headers, SectorFile};
use sector_disk::{Fault, SECTOR_BYTES};
use std::fs::{File, Files, Metadata, OpenFile};
use std::io;
use std::os::unix::fs::{FileExt, MetadataExt};

/// What the header of a hill begins with, in the format in which hills are written.
const BEGINNING: &[u8] = b"KOTHHIL2";

/// Whether the file is locked for this program alone.
#[derive(Clone, Copy, Debug, PartialEq, Eq)]
pub enum Sharing {
    /// Its lock is taken, so no other program that takes it works on the file.
    Alone,
    /// The same, and the file is read alone: each write is a fault.
    Kept,
    /// Its lock is neither taken nor looked at. The file is read alone: another program may change its headers, and
    /// each write is a fault.
    Shared,
}

/// The file at this path, opened to be read and written. It has to be there.
#[tactic(auto, using(crate::proofs::OfSystem::fault_of_system))]
pub(crate) fn opened<R: Files>(rt: &R, path: &str) -> Result<R::File, OpenFault>
    ensures { IfErr result IsOfSystem }
{
    let mut options = File::options();
    options.read(true).write(true);
    Ok(options.open(rt, path)?)
}

/// An open file, and the path that has to lead to it.
#[derive(Drop)]
pub struct PlacedFile<'f, R: Files> {
    pub(crate) rt: &'f R,
    pub(crate) path: &'f str,
    pub(crate) handle: R::File,
    pub(crate) sharing: Sharing,
    /// Its folder, until its name was synced. Nothing if no sync of its name is due.
    pub(crate) folder: Option<R::File>,
}

impl<R: Files> PlacedFile<'_, R>
where
    R::File: TryLock,
{
    /// The number of the file's whole sectors, 2³² - 1 if it has more. Nothing if the path leads elsewhere by now.
    pub(crate) fn sectors_in_place(&self) -> io::Result<Option<u32>> {
        let open = self.handle.metadata()?;
        let found = self.rt.metadata(self.path)?;
        if !is_same_file(&open, &found) {
            return Ok(None);
        }
        let sectors = open.len() / SECTOR_BYTES;
        Ok(Some(u32::try_from(sectors).unwrap_or(u32::MAX)))
    }

    /// One of the headers begins as one of a hill, in a file that may be written.
    pub(crate) fn begins_as_a_hill(&mut self) -> io::Result<bool>
        ensures sharing { self.new.sharing ≡ self.old.sharing }
        ensures shared { self.old.sharing ≡ Sharing.Shared → result ≡ Ok false }
        ensures kept { self.old.sharing ≡ Sharing.Kept → result ≡ Ok false }
    {
        match self.sharing {
            Sharing::Alone => {
                let headers = read_headers(&self.handle)?;
                Ok(headers.even.starts_with(BEGINNING) || headers.odd.starts_with(BEGINNING))
            }
            Sharing::Kept | Sharing::Shared => Ok(false),
        }
    }
}

impl<R: Files> SectorFile for PlacedFile<'_, R>
where
    R::File: TryLock,
{
    // What the system did is not recorded.
    ghost happened = { λ _ _. ⊤ };

    fn length(&mut self) -> Result<u32, Fault> {
        match self.sectors_in_place() {
            Ok(Some(sectors)) => Ok(sectors),
            Ok(None) | Err(_) => Err(Fault),
        }
    }

    /// Those of a file that is shared are not looked at: they are zeros.
    fn headers(&mut self) -> Result<Headers, Fault>
        ensures looks { Looks (λ _ _. ⊤) self.old result self.new }
        ensures sharing { self.new.sharing ≡ self.old.sharing }
        ensures shared { self.old.sharing ≡ Sharing.Shared → result ≡ Ok Headers.ZEROS }
    {
        match self.sharing {
            Sharing::Alone | Sharing::Kept => read_headers(&self.handle).or(Err(Fault)),
            Sharing::Shared => Ok(Headers::ZEROS),
        }
    }

    fn read(&mut self, n: u32, to: &mut [u8; 512]) -> Result<(), Fault> {
        self.handle.read_exact_at(to, offset_of(n)).or(Err(Fault))
    }

    fn write(&mut self, n: u32, from: &[u8; 512]) -> Result<(), Fault>
        ensures writes { Writes (λ _ _. ⊤) n self.old from.now result self.new }
        ensures sharing { self.new.sharing ≡ self.old.sharing }
        ensures shared { self.old.sharing ≡ Sharing.Shared → IsErr result × (self.new ≡ self.old) }
        ensures kept { self.old.sharing ≡ Sharing.Kept → IsErr result × (self.new ≡ self.old) }
    {
        match self.sharing {
            Sharing::Alone => self.handle.write_all_at(from, offset_of(n)).or(Err(Fault)),
            Sharing::Kept | Sharing::Shared => Err(Fault),
        }
    }

    fn sync(&mut self) -> Result<(), Fault> {
        self.handle.sync_all().or(Err(Fault))
    }

    /// The folder is closed then, as no further sync of it is due.
    fn sync_name(&mut self) -> Result<(), Fault> {
        match &self.folder {
            Some(folder) => folder.sync_all().or(Err(Fault))?,
            None => return Err(Fault),
        }
        self.folder = None;
        Ok(())
    }
}

/// Reads both headers at once.
fn read_headers<F: FileExt>(file: &F) -> io::Result<Headers> {
    let mut both = [[0; 512]; 2];
    file.read_exact_at(both.as_flattened_mut(), 0)?;
    let [even, odd] = both;
    Ok(Headers { even, odd })
}

/// The first byte of a sector.
fn offset_of(sector: u32) -> u64 {
    u64::from(sector) * SECTOR_BYTES
}

/// Whether they are of one file, by its device and its number there.
pub(crate) fn is_same_file(one: &Metadata, other: &Metadata) -> bool {
    one.dev() == other.dev() && one.ino() == other.ino()
}

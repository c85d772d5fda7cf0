//! The device that looks at the headers before it writes, and believes no sync after one that failed. It has the file's
//! name reach the disk.

ghost use Rattle.std.specs.Prelude.{◌≡◌, ◌⊎◌, ⊤, ◌++◌, true, false, [], ◌∷◌, IfOk, MatchResult, OnOk};
ghost use Rattle.hill_file.specs.Careful.{careful_facts, EachWasWritten, Goes, HasDone, IsAsRead, IsCounted, IsLook, IsNaming, IsPut, IsRead, IsSync, Settles, WritesNone, opening};
ghost use Rattle.{sector_disk.specs.Served.IsServed, hill_file.specs.Done.Done};

use crate::sector_file::{Headers, SectorFile};
use sector_disk::{Device, Fault};

/// A device over a file of sectors, which notices if somebody else wrote the file's headers.
///
/// It knows both headers as they were when it was opened, or as it wrote them since. Before each write and after each
/// sync it looks whether the file has them and each sector. If not, the call is a fault, and a write writes nothing.
/// After a sync that failed, and when it was opened in doubt, the next one first writes each sector again as it reads
/// it. If it was opened in doubt, none is answered `Ok` before the file's name was synced.
#[derive(Drop)]
pub struct CarefulDevice<F> {
    file: F,
    sectors: u32,
    known: Headers,
    settled: Headers,
    doubt: bool,
    named: bool,
    faults: u64,
}

impl<F: SectorFile + Drop> CarefulDevice<F> {
    /// The device over this file. It has counted no fault. `Fault` if the file's length or its headers can't be read.
    /// If it has fewer than two sectors, it has no headers, and the device writes and syncs nothing.
    ///
    /// In `doubt` the device doesn't know whether an earlier sync of the file failed, nor whether its name was synced.
    pub fn over(file: F, doubt: bool) -> Result<CarefulDevice<F>, Fault>
        ensures faults { IfOk result (λ device. device.faults ≡ 0) }
        ensures settled { IfOk result (λ device. device.settled ≡ device.known) }
        ensures doubt { IfOk result (λ device. device.doubt ≡ doubt) }
        ensures named { doubt ≡ false → IfOk result (λ device. device.named ≡ true) }
        ensures begins { F.happened file [] → IfOk result (λ device.
            HasDone F.happened (opening device.known doubt) device []
            ⊎ HasDone F.happened (opening device.known doubt) device (Done.Looked device.known ∷ [])) }
    {
        let mut file = file;
        let sectors = file.length()?;
        let known = if sectors < 2 {
            Headers::ZEROS
        } else {
            file.headers()?
        };
        Ok(CarefulDevice {
            file,
            sectors,
            known,
            settled: known,
            doubt,
            named: !doubt,
            faults: 0,
        })
    }
}

impl<F: SectorFile> CarefulDevice<F> {
    /// Both headers as they were at the last sync that was answered `Ok`, or when the device was opened.
    pub fn settled(&self) -> Headers
        ensures { result ≡ self.now.settled }
    {
        self.settled
    }

    /// The file has each sector, and the headers that are known.
    fn look(&mut self) -> Result<(), Fault>
        ensures size { self.new.sectors ≡ self.old.sectors }
        ensures faults { self.new.faults ≡ self.old.faults }
        ensures doubt { self.new.doubt ≡ self.old.doubt }
        ensures settled { self.new.settled ≡ self.old.settled }
        ensures named { self.new.named ≡ self.old.named }
        ensures goes { Goes F.happened (IsLook result) self.old self.new }
    {
        let sectors = self.file.length()?;
        let found = self.file.headers()?;
        if self.sectors <= sectors && found == self.known {
            Ok(())
        } else {
            Err(Fault)
        }
    }

    /// Writes a sector, after a look.
    fn put(&mut self, n: u32, from: &[u8; 512]) -> Result<(), Fault>
        ensures size { self.new.sectors ≡ self.old.sectors }
        ensures faults { self.new.faults ≡ self.old.faults }
        ensures doubt { self.new.doubt ≡ self.old.doubt }
        ensures settled { self.new.settled ≡ self.old.settled }
        ensures named { self.new.named ≡ self.old.named }
        ensures goes { Goes F.happened (IsPut n from.now result) self.old self.new }
    {
        self.look()?;
        self.file.write(n, from)?;
        self.known.take(n, from);
        Ok(())
    }

    /// Writes each sector again, as it is read.
    fn put_all(&mut self) -> Result<(), Fault>
        ensures size { self.new.sectors ≡ self.old.sectors }
        ensures faults { self.new.faults ≡ self.old.faults }
        ensures doubt { self.new.doubt ≡ self.old.doubt }
        ensures settled { self.new.settled ≡ self.old.settled }
        ensures named { self.new.named ≡ self.old.named }
        ensures goes { Goes F.happened (λ start log done. IsAsRead done
            × MatchResult result (λ _. EachWasWritten self.old.sectors (done ++ log)) (λ _. ⊤)) self.old self.new }
    {
        let mut content = [0; 512];
        for n in 0..self.sectors {
            self.file.read(n, &mut content)?;
            self.put(n, &content)?;
        }
        Ok(())
    }

    /// Writes each sector again, if a sync isn't to be believed.
    fn freshen(&mut self) -> Result<(), Fault>
        ensures size { self.new.sectors ≡ self.old.sectors }
        ensures faults { self.new.faults ≡ self.old.faults }
        ensures settled { self.new.settled ≡ self.old.settled }
        ensures named { self.new.named ≡ self.old.named }
        ensures goes { Goes F.happened (λ start log done. IsAsRead done
            × MatchResult result (λ _. (self.new.doubt ≡ false)
            ⊎ EachWasWritten self.new.sectors (done ++ log)) (λ _. ⊤)) self.old self.new }
        ensures quiet { self.old.doubt ≡ false → (self.new.doubt ≡ false)
            × Goes F.happened (λ start log done. done ≡ []) self.old self.new }
    {
        if self.doubt { self.put_all() } else { Ok(()) }
    }

    /// Syncs the file, and takes note whether that failed.
    fn settle(&mut self) -> Result<(), Fault>
        ensures size { self.new.sectors ≡ self.old.sectors }
        ensures faults { self.new.faults ≡ self.old.faults }
        ensures settled { self.new.settled ≡ self.old.settled }
        ensures named { self.new.named ≡ self.old.named }
        ensures goes { Settles F.happened result self.old self.new }
    {
        let answer = self.file.sync();
        self.doubt = answer.is_err();
        answer
    }

    /// Syncs the file's name, if the device was opened in doubt and none of its syncs of the name was done.
    fn keep_name(&mut self) -> Result<(), Fault>
        ensures size { self.new.sectors ≡ self.old.sectors }
        ensures faults { self.new.faults ≡ self.old.faults }
        ensures doubt { self.new.doubt ≡ self.old.doubt }
        ensures settled { self.new.settled ≡ self.old.settled }
        ensures named { OnOk result (self.new.named ≡ true) }
        ensures goes { Goes F.happened IsNaming self.old self.new }
    {
        if !self.named {
            self.file.sync_name()?;
            self.named = true;
        }
        Ok(())
    }

    /// Does what comes before the sync of the file: writes each sector again and syncs the name, where that is due.
    fn prepare(&mut self) -> Result<(), Fault>
        ensures size { self.new.sectors ≡ self.old.sectors }
        ensures faults { self.new.faults ≡ self.old.faults }
        ensures settled { self.new.settled ≡ self.old.settled }
        ensures named { OnOk result (self.new.named ≡ true) }
        ensures goes { Goes F.happened (λ start log done. IsAsRead done
            × MatchResult result (λ _. (self.new.doubt ≡ false)
            ⊎ EachWasWritten self.new.sectors (done ++ log)) (λ _. ⊤)) self.old self.new }
        ensures quiet { self.old.doubt ≡ false
            → (self.new.doubt ≡ false) × Goes F.happened IsNaming self.old self.new }
    {
        self.freshen()?;
        self.keep_name()
    }

    /// Syncs the file after what comes before that, and looks then.
    fn sync_whole(&mut self) -> Result<(), Fault>
        ensures size { self.new.sectors ≡ self.old.sectors }
        ensures faults { self.new.faults ≡ self.old.faults }
        ensures settled { self.new.settled ≡ self.old.settled }
        ensures goes { Goes F.happened (IsSync self.old.sectors result) self.old self.new }
        ensures quiet { self.old.doubt ≡ false
            → Goes F.happened (λ start log done. WritesNone done) self.old self.new }
    {
        self.prepare()?;
        self.settle()?;
        self.look()
    }
}

/// Counts the fault of a call that failed.
fn counted(faults: &mut u64, answer: Result<(), Fault>) -> Result<(), Fault>
    ensures same { result ≡ answer }
    ensures counted { IsCounted faults.old faults.new result }
{
    if answer.is_err() {
        *faults = faults.saturating_add(1);
    }
    answer
}

impl<F: SectorFile> Device for CarefulDevice<F> {
    ghost facts = { careful_facts };

    fn sectors(&self) -> u32 {
        self.sectors
    }

    fn faults(&self) -> u64 {
        self.faults
    }

    fn read(&mut self, n: u32, to: &mut [u8; 512]) -> Result<(), Fault>
        ensures served { IsServed careful_facts self.old self.new result }
        ensures settled { self.new.settled ≡ self.old.settled }
        ensures goes { Goes F.happened (IsRead n to.new result) self.old self.new }
    {
        let answer = self.file.read(n, to);
        counted(&mut self.faults, answer)
    }

    fn write(&mut self, n: u32, from: &[u8; 512]) -> Result<(), Fault>
        ensures served { IsServed careful_facts self.old self.new result }
        ensures settled { self.new.settled ≡ self.old.settled }
        ensures goes { Goes F.happened (IsPut n from.now result) self.old self.new }
    {
        let answer = self.put(n, from);
        counted(&mut self.faults, answer)
    }

    fn sync(&mut self) -> Result<(), Fault>
        ensures served { IsServed careful_facts self.old self.new result }
        ensures settled { MatchResult result (λ _. self.new.settled ≡ self.new.known)
            (λ _. self.new.settled ≡ self.old.settled) }
        ensures goes { Goes F.happened (IsSync self.old.sectors result) self.old self.new }
        ensures quiet { self.old.doubt ≡ false
            → Goes F.happened (λ start log done. WritesNone done) self.old self.new }
    {
        let answer = self.sync_whole();
        if answer.is_ok() {
            self.settled = self.known;
        }
        counted(&mut self.faults, answer)
    }
}

//! What may be done with a file of sectors.

ghost use Rattle.std.specs.Prelude.{◌≡◌, List};
ghost use Rattle.hill_file.specs.{Careful.headers_after, Done.{Done, Looks, Names, Reads, Stays, Syncs, Writes}};

use sector_disk::Fault;

/// What the two header sectors hold.
#[derive(Clone, Copy, PartialEq, Eq)]
pub struct Headers {
    /// Sector 0.
    pub even: [u8; 512],
    /// Sector 1.
    pub odd: [u8; 512],
}

impl Headers {
    /// Headers of zeros.
    pub const ZEROS: Headers = Headers {
        even: [0; 512],
        odd: [0; 512],
    };

    /// This content was written to a sector.
    pub(crate) fn take(&mut self, n: u32, content: &[u8; 512])
        ensures { self.new ≡ headers_after n content.now self.old }
    {
        match n {
            0 => self.even = *content,
            1 => self.odd = *content,
            _ => {}
        }
    }
}

/// A file of sectors of 512 bytes each, numbered from 0, of which the first two hold headers. Each call is one on the
/// file, and is answered `Fault` if that fails.
pub trait SectorFile {
    // What was done with the file, the latest first, as far as it keeps it. A history that is true of it stays true of
    // it as it goes on.
    ghost happened: { Self → List Done → Type 0 };

    /// The number of its whole sectors. `Fault` also if it isn't the file that was opened.
    fn length(&mut self) -> Result<u32, Fault>
        ensures { Stays Self.happened self.old self.new };

    /// Reads both headers at once.
    fn headers(&mut self) -> Result<Headers, Fault>
        ensures { Looks Self.happened self.old result self.new };

    /// Reads a sector.
    fn read(&mut self, n: u32, to: &mut [u8; 512]) -> Result<(), Fault>
        ensures { Reads Self.happened n self.old to.new result self.new };

    /// Writes a sector. After a `Fault` it may have been written.
    fn write(&mut self, n: u32, from: &[u8; 512]) -> Result<(), Fault>
        ensures { Writes Self.happened n self.old from.now result self.new };

    /// Syncs what was written.
    fn sync(&mut self) -> Result<(), Fault>
        ensures { Syncs Self.happened self.old result self.new };

    /// Syncs the file's name in its folder.
    fn sync_name(&mut self) -> Result<(), Fault>
        ensures { Names Self.happened self.old result self.new };
}

//! A sector of the device in memory.

ghost use Rattle.std.specs.Prelude.{◌≡◌, ◌++◌, [], ◌∷◌, IfOk, OnErr, OnOk};
ghost use Rattle.sector_disk.specs.{Disk.last_of, Memory.{SectorState, sector_of, chosen}};

use std::alloc::{AllocError, Allocator};
use std::marker::Model;

/// A stable content, and the contents written since the last sync.
#[derive(Drop)]
pub struct Sector<A: Allocator> {
    stable: [u8; 512],
    written: Vec<[u8; 512], A>,
}

impl<A: Allocator> Model for Sector<A> {
    ghost use Rattle.sector_disk.specs.Memory.{SectorState, sector_of};

    ghost Value = { SectorState };

    ghost view = { λ s. sector_of s.stable s.written.items };
}

impl<A: Allocator> Sector<A> {
    /// A sector that holds this content for good. It needs no memory.
    pub fn new(alloc: A, stable: [u8; 512]) -> Sector<A>
        ensures { result ≡ sector_of stable [] }
    {
        Sector {
            stable,
            written: Vec::new(alloc),
        }
    }

    /// What a read gives.
    pub fn current(&self) -> &[u8; 512]
        ensures { result.now ≡ last_of self.now.stable self.now.written }
    {
        last_of(&self.stable, &self.written)
    }

    /// The content that a number names: 0 the stable one, k the k-th written since the last sync, a greater number the last.
    pub fn chosen(&self, k: u32) -> &[u8; 512]
        ensures { result.now ≡ chosen self.now.stable self.now.written k }
    {
        let count = self.written.len().min(k as usize);
        last_of(&self.stable, &self.written[..count])
    }

    /// Writes a content. If there is no memory, nothing changes.
    pub fn write(&mut self, content: &[u8; 512]) -> Result<(), AllocError>
        ensures ok { OnOk result (self.new ≡ sector_of self.old.stable (self.old.written ++ content.now ∷ [])) }
        ensures err { OnErr result (self.new ≡ self.old) }
    {
        Ok(self.written.push(*content)?)
    }

    /// Makes a content the stable one, and drops what was written.
    pub fn set(&mut self, content: &[u8; 512])
        ensures { self.new ≡ sector_of content.now [] }
    {
        self.stable = *content;
        self.written.clear();
    }

    /// Makes the last content the stable one.
    pub fn sync(&mut self)
        ensures { self.new ≡ sector_of (last_of self.old.stable self.old.written) [] }
    {
        self.stable = *self.current();
        self.written.clear();
    }
}

/// The last of these contents, or the stable one if there is none.
fn last_of<'c>(stable: &'c [u8; 512], contents: &'c [[u8; 512]]) -> &'c [u8; 512]
    ensures { result.now ≡ last_of stable.now contents.now }
{
    contents.last().unwrap_or(stable)
}

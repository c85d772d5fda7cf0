//! The names of counters, and where their blocks stand.

use crate::name_key::{NameHash, NameKey};
use indexmap::IndexMap;
use std::alloc::{AllocError, Allocator};
use std::marker::Model;

/// The names of counters, each with the indices of two blocks among the open ones, the outermost and the innermost of that name. Entries
/// may be stale: an index may belong to another block or to none, so callers compare the name.
#[derive(Drop)]
pub struct CounterNames<'s, A: Allocator + Copy> {
    firsts: IndexMap<NameKey<'s>, usize, NameHash, A>,
    lasts: IndexMap<NameKey<'s>, usize, NameHash, A>,
}

impl<'s, A: Allocator + Copy> Model for CounterNames<'s, A> {
    ghost use Rattle.redcode_names.specs.Name.{CounterPlaces, counter_places};

    ghost Value = { CounterPlaces };

    ghost view = { λ n. counter_places n.firsts.entries n.lasts.entries };
}

impl<'s, A: Allocator + Copy> CounterNames<'s, A> {
    ghost use Rattle.std.specs.{Prelude.{◌≡◌, [], OnOk, OnErr}, Str.bytes_eq};
    ghost use Rattle.{indexmap.specs.IndexMap.insert_entry, redcode_names.specs.Name.{address_of, counter_places}};

    /// No names.
    pub fn new(alloc: A, hash: NameHash) -> Self
        ensures { result ≡ counter_places [] [] }
    {
        CounterNames {
            firsts: IndexMap::with_hasher(alloc, hash),
            lasts: IndexMap::with_hasher(alloc, hash),
        }
    }

    /// The outermost index that a name has.
    #[tactic(auto, using(crate::proofs::Lookups::names))]
    pub fn first_of(&self, name: &[u8]) -> Option<usize>
        ensures { result ≡ address_of self.now.firsts name.now }
    {
        self.firsts.get(&NameKey { bytes: name }).copied()
    }

    /// The innermost index that a name has.
    #[tactic(auto, using(crate::proofs::Lookups::names))]
    pub fn last_of(&self, name: &[u8]) -> Option<usize>
        ensures { result ≡ address_of self.now.lasts name.now }
    {
        self.lasts.get(&NameKey { bytes: name }).copied()
    }

    /// Gives a name this outermost index.
    pub fn set_first(&mut self, name: &'s [u8], place: usize) -> Result<(), AllocError>
        ensures set { OnOk result (self.new ≡ counter_places (insert_entry bytes_eq self.old.firsts name.entry.now place) self.old.lasts) }
        ensures failed { OnErr result (self.new ≡ self.old) }
    {
        let name = NameKey { bytes: name };
        self.firsts.insert(name, place)?;
        Ok(())
    }

    /// Gives a name this innermost index.
    pub fn set_last(&mut self, name: &'s [u8], place: usize) -> Result<(), AllocError>
        ensures set { OnOk result (self.new ≡ counter_places self.old.firsts (insert_entry bytes_eq self.old.lasts name.entry.now place)) }
        ensures failed { OnErr result (self.new ≡ self.old) }
    {
        let name = NameKey { bytes: name };
        self.lasts.insert(name, place)?;
        Ok(())
    }
}

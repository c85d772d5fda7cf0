//! The labels of a source.
#![tactic(auto, using(crate::proofs::Lookups::names))]

ghost use Rattle.std.specs.Prelude.{◌≡◌, ◌++◌, ◌∷◌, [], true, not, is_some, IfOk, OnOk};
ghost use Rattle.redcode_names.specs.Name.{address_of};

use crate::name_key::{NameHash, NameKey};
use indexmap::IndexMap;
use std::alloc::{AllocError, Allocator};
use std::marker::Model;

/// Labels that the first table has room for.
const FIRST_ROOM: usize = 18;

/// A full table makes room for this many times its labels.
const GROWTH: usize = 7;

/// Names with the addresses that they stand for, in the order of their definition.
#[derive(Drop)]
pub struct Labels<'s, A: Allocator + Copy> {
    pub(crate) addresses: IndexMap<NameKey<'s>, u32, NameHash, A>,
}

impl<'s, A: Allocator + Copy> Model for Labels<'s, A> {
    ghost use Rattle.redcode_names.specs.Name.{LabelList};

    ghost Value = { LabelList };

    ghost view = { λ l. l.addresses.entries };
}

impl<'s, A: Allocator + Copy> Labels<'s, A> {
    /// The address of the label of this name.
    pub fn address_of(&self, name: &[u8]) -> Option<u32>
        ensures { result ≡ address_of self.now name.now }
    {
        self.addresses.get(&NameKey { bytes: name }).copied()
    }

    /// Adds a label, and answers whether its name is new. If it isn't, nothing is promised of the labels.
    pub(crate) fn add(&mut self, name: &'s [u8], address: u32) -> Result<bool, AllocError>
        ensures new { IfOk result (λ is_new. is_new ≡ not (is_some (address_of self.old name.entry.now))) }
        ensures added { IfOk result (λ is_new. is_new ≡ true → self.new ≡ self.old ++ (name.entry.now, address) ∷ []) }
    {
        self.make_room()?;
        let name = NameKey { bytes: name };
        let earlier = self.addresses.insert(name, address)?;
        Ok(earlier.is_none())
    }

    /// Makes room for a further label. A full table grows eightfold: with many labels most of the time would else go into moving them to
    /// larger tables. So a source with millions of labels soon asks for more memory than there is.
    fn make_room(&mut self) -> Result<(), AllocError>
        ensures { OnOk result (self.new ≡ self.old) }
    {
        let count = self.addresses.len();
        if count < self.addresses.capacity() {
            return Ok(());
        }
        self.addresses
            .reserve(count.saturating_mul(GROWTH).max(FIRST_ROOM))
    }
}

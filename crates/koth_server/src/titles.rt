//! The titles of those on a hill, as the log names them. Those of the hill before a submission tell who fell for it.

use koth_hill::{Hill, Member};
use std::alloc::{AllocError, Allocator};

/// A warrior on a hill, by its entry, its name and its author.
#[derive(Drop)]
pub(crate) struct Titled<A: Allocator> {
    pub(crate) entry: u64,
    pub(crate) name: Vec<u8, A>,
    pub(crate) author: Vec<u8, A>,
}

/// The warriors on a hill, or none if memory ran out.
#[derive(Drop)]
pub(crate) struct Titles<A: Allocator> {
    titled: Vec<Titled<A>, A>,
}

impl<A: Allocator + Copy> Titles<A> {
    /// Nobody's.
    pub(crate) fn new(alloc: A) -> Titles<A> {
        Titles {
            titled: Vec::new(alloc),
        }
    }

    /// Those of the warriors on this hill.
    pub(crate) fn of(alloc: A, hill: &Hill<A>) -> Titles<A> {
        match titles_of(alloc, hill) {
            Ok(titled) => Titles { titled },
            Err(AllocError) => Titles::new(alloc),
        }
    }

    /// The warrior with this entry.
    pub(crate) fn of_entry(&self, entry: u64) -> Option<&Titled<A>> {
        for at in 0..self.titled.len() {
            if self.titled[at].entry == entry {
                return Some(&self.titled[at]);
            }
        }
        None
    }

    /// The first warrior that isn't among these others.
    pub(crate) fn missing_in(&self, others: &Titles<A>) -> Option<&Titled<A>> {
        for at in 0..self.titled.len() {
            if others.of_entry(self.titled[at].entry).is_none() {
                return Some(&self.titled[at]);
            }
        }
        None
    }
}

fn titles_of<A: Allocator + Copy>(
    alloc: A,
    hill: &Hill<A>,
) -> Result<Vec<Titled<A>, A>, AllocError> {
    let mut titled = Vec::with_capacity(alloc, hill.len())?;
    for place in 0..hill.len() {
        if let Some(member) = hill.member(place) {
            let of_member = titled_of(alloc, &member)?;
            titled.push(of_member)?;
        }
    }
    Ok(titled)
}

fn titled_of<A: Allocator + Copy>(
    alloc: A,
    member: &Member<'_, A>,
) -> Result<Titled<A>, AllocError> {
    Ok(Titled {
        entry: member.entry,
        name: Vec::from_slice(alloc, member.warrior.name().bytes())?,
        author: Vec::from_slice(alloc, member.warrior.author().bytes())?,
    })
}

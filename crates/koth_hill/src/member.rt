//! Those who are on a hill.

ghost use Rattle.std.specs.Prelude.{◌≡◌, ◌+◌, ◌<◌, ◌^◌, Option};
ghost use Rattle.koth_hill.specs.{Hill.member_of, Rows.row_parts, Table.row_with, Kept.{entrant_of, stayed}, Standings.{standing_of, standing_parts}};

use crate::bouts::Bouts;
use crate::row::Row;
use crate::standings::Standing;
use std::alloc::Allocator;
use std::marker::Model;
use war_types::Warrior;

/// A warrior on a hill, as `Hill::member` shows it.
#[derive(Drop)]
pub struct Member<'h, A: Allocator> {
    /// The number of its entry, from 1 on.
    pub entry: u64,
    /// How many warriors have stayed since it entered.
    pub age: u64,
    pub warrior: &'h Warrior<A>,
}

impl<'h, A: Allocator> Model for Member<'h, A> {
    ghost use Rattle.koth_hill.specs.Hill.{Member as MemberParts, member_of};

    ghost Value = { MemberParts };

    ghost view = { λ m. member_of m.entry m.age m.warrior.now };
}

/// A warrior on a hill, which the hill owns, with the results of its matches with those that entered before it.
#[derive(Drop)]
pub(crate) struct Entrant<A: Allocator> {
    entry: u64,
    age: u64,
    warrior: Warrior<A>,
    bouts: Bouts,
}

impl<A: Allocator> Model for Entrant<A> {
    ghost use Rattle.koth_hill.specs.{Hill.member_of, Kept.{Entrant as EntrantParts, entrant_of}};

    ghost Value = { EntrantParts };

    ghost view = { λ e. entrant_of (member_of e.entry e.age e.warrior) e.bouts };
}

impl<A: Allocator> Entrant<A> {
    pub(crate) fn new(entry: u64, age: u64, warrior: Warrior<A>, bouts: Bouts) -> Entrant<A>
        ensures { result ≡ entrant_of (member_of entry age warrior) bouts }
    {
        Entrant {
            entry,
            age,
            warrior,
            bouts,
        }
    }

    pub(crate) fn shown(&self) -> Member<'_, A>
        ensures { result ≡ self.now.member }
    {
        Member {
            entry: self.entry,
            age: self.age,
            warrior: &self.warrior,
        }
    }

    pub(crate) fn entry(&self) -> u64
        ensures { result ≡ self.now.member.entry }
    {
        self.entry
    }

    pub(crate) fn warrior(&self) -> &Warrior<A>
        ensures { result.now ≡ self.now.member.warrior }
    {
        &self.warrior
    }

    pub(crate) fn bouts(&self) -> &Bouts
        ensures { result.now ≡ self.now.bouts }
    {
        &self.bouts
    }

    pub(crate) fn standing(&self) -> Standing<'_>
        ensures { standing_parts result ≡ standing_of self.now }
    {
        Standing {
            entry: self.entry,
            bouts: self.bouts.as_slice(),
        }
    }

    pub(crate) fn row(&self, score: u32) -> Row<'_>
        ensures { row_parts result ≡ row_with score self.now.member }
    {
        Row {
            entry: self.entry,
            name: self.warrior.name(),
            author: self.warrior.author(),
            score,
            age: self.age,
        }
    }

    /// One more warrior has stayed, and the one at this place, if any, has fallen.
    pub(crate) fn stay(&mut self, fallen: Option<usize>)
        requires { self.old.member.age + 1 < 2 ^ 64 }
        ensures { self.new ≡ stayed fallen self.old }
    {
        self.age += 1;
        self.bouts.forget(fallen);
    }
}

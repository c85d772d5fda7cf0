//! The hill.

ghost use Rattle.std.specs.Prelude.{◌≡◌, ◌+◌, ◌-◌, ◌<◌, ◌≤◌, ◌^◌, ◌++◌, ◌∷◌, [], All, true, false, length, slice_get, None, Some, IfOk, IfSome};
ghost use Rattle.{war_types.specs.Warrior.{WarriorParts, Fits}, koth_match.specs.Match.rounds_in};
ghost use Rattle.koth_hill.specs.{Hill.{last_entry, member_of}, Table.table, Rows.rows_parts, Laws.{IsRanking, LeastFalls, OthersStay}, Step.{verdict, step, matches_with}};
ghost use Rattle.koth_hill.specs.Kept.{AreTrue, AreTrueBefore, IsKept, IsUntrue, entries_of, fresh, hill_in, kept_fall, kept_of, new_kept, result_of, step_kept, table_kept, verdict_kept};

use crate::bouts::Bouts;
use crate::challenge::Challenge;
use crate::falls::{let_fall, place_of, stay_on};
use crate::fights::{first_difference, matches_with};
use crate::judging::judged;
use crate::member::{Entrant, Member};
use crate::points::result_of;
use crate::row::Row;
use crate::standings::{Standing, Standings};
use crate::table::rows_of;
use crate::untrue::Untrue;
use crate::verdict::Verdict;
use koth_match::Bout;
use mars_core::Arena;
use std::alloc::{AllocError, Allocator};
use std::marker::Model;
use war_types::{Settings, Warrior};

/// A hill: its settings, the number of warriors that were ever judged, and the warriors on it, by their entries. Each
/// has the results of its matches with those that entered before it. A challenger fights its own matches and no others,
/// and a table none. Only `new`, `with_counter` and `rows` take memory.
#[derive(Drop)]
pub struct Hill<A: Allocator> {
    settings: Settings,
    counter: u64,
    members: Vec<Entrant<A>, A>,
}

impl<A: Allocator> Model for Hill<A> {
    ghost use Rattle.std.specs.Prelude.{◌+◌, ◌≤◌, vec_capacity};
    ghost use Rattle.koth_hill.specs.Kept.{Kept, IsKept, kept_of, members_of, rows_of};

    ghost Value = { Kept };

    ghost view = { λ h. kept_of h.settings h.counter (members_of h.members.items) (rows_of h.members.items) };

    ghost invariant = { λ h. IsKept (kept_of h.settings h.counter (members_of h.members.items)
        (rows_of h.members.items)) × (h.settings.capacity + 1 ≤ vec_capacity h.members) };
}

impl<A: Allocator> Hill<A> {
    /// A hill without warriors. It takes the memory for the hill's capacity and one more.
    pub fn new(alloc: A, settings: Settings) -> Result<Hill<A>, AllocError>
        ensures { IfOk result (λ hill. hill ≡ new_kept settings 0) }
    {
        Hill::with_counter(alloc, settings, 0)
    }

    /// A hill without warriors, on which `counter` were judged already, as `put_back` asks for.
    pub fn with_counter(alloc: A, settings: Settings, counter: u64) -> Result<Hill<A>, AllocError>
        ensures { IfOk result (λ hill. hill ≡ new_kept settings counter) }
    {
        let members = Vec::with_capacity(alloc, usize::from(settings.capacity()) + 1)?;
        Ok(Hill {
            settings,
            counter,
            members,
        })
    }

    /// The number of warriors that were ever judged and then admitted or passed.
    pub fn counter(&self) -> u64
        ensures value { result ≡ self.now.counter }
        ensures hill { IsKept self.now }
    {
        self.counter
    }

    /// The number of warriors on the hill, at most its capacity.
    pub fn len(&self) -> usize
        ensures value { result ≡ length self.now.members }
        ensures hill { IsKept self.now }
    {
        self.members.len()
    }

    /// The hill's settings.
    pub fn settings(&self) -> &Settings
        ensures value { result.now ≡ self.now.settings }
        ensures hill { IsKept self.now }
    {
        &self.settings
    }

    /// The warrior at index `i` of those on the hill, by rising entry; `None` past them.
    pub fn member(&self, i: usize) -> Option<Member<'_, A>>
        ensures value { result ≡ slice_get self.now.members i }
        ensures hill { IsKept self.now }
    {
        match self.members.get(i) {
            Some(entrant) => Some(entrant.shown()),
            None => None,
        }
    }

    /// The results kept of the warrior at index `i` with those that entered before it, by rising entry.
    pub fn bouts(&self, i: usize) -> &[Bout]
        requires { i < length self.now.members }
        ensures value { slice_get self.now.results i ≡ Some result.now }
        ensures hill { IsKept self.now }
    {
        self.members[i].bouts().as_slice()
    }

    /// The result kept of two warriors on the hill, by their entries; `None` unless both are on it, the first entered
    /// before the other.
    pub fn bout(&self, older_entry: u64, younger_entry: u64) -> Option<Bout>
        ensures { result ≡ result_of (entries_of self.now.members) self.now.results older_entry younger_entry }
    {
        let standings = Standings::of(self.members.as_slice());
        result_of(standings.as_slice(), older_entry, younger_entry)
    }

    /// What becomes of a challenger. Its own matches are fought in the arena; the results of all others are there.
    /// Nothing visible changes.
    pub fn judge<B: Allocator, C: Allocator>(
        &mut self,
        arena: &mut Arena<B>,
        challenger: &Warrior<C>,
    ) -> Verdict
        requires arena { arena.old.settings ≡ self.old.settings }
        requires fits { Fits self.old.settings challenger.now }
        requires counter { self.old.counter < 2 ^ 64 - 1 }
        ensures kept { result ≡ verdict_kept self.old challenger.now }
        ensures verdict { AreTrue self.old → result ≡ verdict (hill_in self.old) challenger.now }
        ensures bouts { result.bouts ≡ matches_with self.old.settings self.old.members challenger.now }
        ensures entry { result.entry ≡ self.old.counter + 1 }
        ensures lowest { AreTrue self.old → LeastFalls (hill_in self.old) challenger.now result.falls }
        ensures unchanged { self.new ≡ self.old }
        ensures arena { arena.new.settings ≡ arena.old.settings }
    {
        let mut challenge = Challenge::new(self);
        challenge.fight_out(self, arena, challenger)
    }

    /// The verdict on a challenger with these results of its matches with all on the hill, by their rising entries.
    pub(crate) fn verdict_by(&self, bouts: &[Bout]) -> Verdict
        requires counter { self.now.counter < 2 ^ 64 - 1 }
        requires fought { (w : WarriorParts) × (bouts.now ≡ fresh self.now w) }
        ensures { (w : WarriorParts) → bouts.now ≡ fresh self.now w → result ≡ verdict_kept self.now w }
    {
        let own = Standing {
            entry: self.counter + 1,
            bouts,
        };
        let standings = Standings::with(self.members.as_slice(), own);
        judged(
            standings.as_slice(),
            usize::from(self.settings.capacity()),
            own,
        )
    }

    /// Takes in a challenger that stays, as it was judged: the one that falls goes, and the others grow one older.
    pub fn admit(&mut self, warrior: Warrior<A>, judged: &Verdict)
        requires fits { Fits self.old.settings warrior }
        requires verdict { judged.now ≡ verdict_kept self.old warrior }
        requires stays { judged.now.stays ≡ true }
        ensures kept { self.new ≡ step_kept self.old warrior }
        ensures step { AreTrue self.old → (hill_in self.new ≡ step (hill_in self.old) warrior) × AreTrue self.new }
        ensures others { AreTrue self.old → OthersStay (hill_in self.old) warrior (hill_in self.new) }
        ensures settings { self.new.settings ≡ self.old.settings }
        ensures counter { self.new.counter ≡ self.old.counter + 1 }
    {
        let entry = judged.entry;
        let place = place_of(self.members.as_slice(), judged.falls);
        let mut bouts = Bouts::of(judged.bouts());
        bouts.forget(place);
        self.counter = entry;
        let_fall(&mut self.members, place);
        stay_on(self.members.as_mut_slice(), place);
        let _ = self.members.push(Entrant::new(entry, 0, warrior, bouts));
    }

    /// Counts a challenger that falls, as it was judged.
    pub fn pass(&mut self, judged: &Verdict)
        requires entry { judged.now.entry ≡ self.old.counter + 1 }
        requires falls { judged.now.stays ≡ false }
        ensures after { self.new ≡ kept_fall self.old }
        ensures kept { (w : WarriorParts) → judged.now ≡ verdict_kept self.old w → self.new ≡ step_kept self.old w }
        ensures step { (w : WarriorParts) → judged.now ≡ verdict_kept self.old w → AreTrue self.old
            → (hill_in self.new ≡ step (hill_in self.old) w) × AreTrue self.new }
    {
        self.counter = judged.entry;
    }

    /// Puts a warrior after those on the hill, with the entry and the age that it had, and the results of its matches
    /// with them, by their rising entries.
    pub fn put_back(&mut self, entry: u64, age: u64, warrior: Warrior<A>, bouts: &[Bout])
        requires room { length self.old.members < self.old.settings.capacity }
        requires entry { last_entry self.old.members < entry }
        requires counted { entry ≤ self.old.counter }
        requires age { age ≤ self.old.counter - entry }
        requires fits { Fits self.old.settings warrior }
        requires each { length bouts.now ≡ length self.old.members }
        requires rounds { All (λ b. rounds_in b ≡ self.old.settings.rounds) bouts.now }
        ensures { self.new ≡ kept_of self.old.settings self.old.counter
            (self.old.members ++ member_of entry age warrior ∷ []) (self.old.results ++ bouts.now ∷ []) }
    {
        let members = &mut self.members;
        let _ = members.push(Entrant::new(entry, age, warrior, Bouts::of(bouts)));
    }

    /// The table, highest score first, among equals the earlier entry first. No match is fought.
    pub fn rows<B: Allocator + Copy>(&self, alloc: B) -> Result<Vec<Row<'_>, B>, AllocError>
        ensures kept { IfOk result (λ rows. rows_parts rows.items ≡ table_kept self.now) }
        ensures table { AreTrue self.now → IfOk result (λ rows. rows_parts rows.items ≡ table (hill_in self.now)) }
        ensures ranking { AreTrue self.now
            → IfOk result (λ rows. IsRanking (hill_in self.now) (rows_parts rows.items)) }
    {
        rows_of(alloc, self.members.as_slice())
    }

    /// The first result that is not the one that the match gives when it is fought again in the arena, by the younger's
    /// entry and then the older's. No memory is taken.
    pub fn first_untrue<B: Allocator>(&self, arena: &mut Arena<B>) -> Option<Untrue>
        requires { arena.old.settings ≡ self.now.settings }
        ensures none { result ≡ None → AreTrue self.now }
        ensures some { IfSome result (λ u. IsUntrue self.now u.older u.younger u.kept u.fought) }
        ensures first { IfSome result (λ u. AreTrueBefore self.now u.older u.younger) }
        ensures arena { arena.new.settings ≡ arena.old.settings }
    {
        let members = self.members.as_slice();
        for (i, member) in members.iter().enumerate() {
            let bouts = matches_with(arena, &self.settings, &members[..i], member.warrior());
            let kept = member.bouts().as_slice();
            let fought = bouts.as_slice();
            if let Some(place) = first_difference(kept, fought) {
                return Some(Untrue {
                    older: members[place].entry(),
                    younger: member.entry(),
                    kept: kept[place],
                    fought: fought[place],
                });
            }
        }
        None
    }

    /// Whether each result is the one that the match gives when it is fought again in the arena.
    pub fn audit<B: Allocator>(&self, arena: &mut Arena<B>) -> bool
        requires { arena.old.settings ≡ self.now.settings }
        ensures value { (result ≡ true → AreTrue self.now) × (AreTrue self.now → result ≡ true) }
        ensures arena { arena.new.settings ≡ arena.old.settings }
    {
        self.first_untrue(arena).is_none()
    }
}

//! The parts of a field joined, in the order of their numbers.

ghost use Rattle.std.specs.Prelude.{◌≡◌, ◌+◌, ◌*◌, ◌≤◌, ◌++◌, ◌∷◌, [], length, map, All, IfOk, OnOk, List, true};
ghost use Rattle.koth_standings.specs.{PartText.{head_parts, part_parts, numbered, AreJoined, PartParts}, declared.part_text.Row.Row, Standings.{most_rounds, rounds_in}};

use crate::part_text::{PartHead, PartRead, Row};
use crate::standings::Standings;
use koth_text::Tally;
use std::alloc::{AllocError, Allocator};

/// Most matches of a field.
const MOST_MATCHES: u64 = 4_294_967_296;

/// Most rounds of a match.
const MOST_ROUNDS: u64 = 131_070;

/// Why a part isn't taken.
#[derive(Clone, Copy, PartialEq, Eq)]
pub enum NotTaken {
    /// Its head is another one, or it has more or fewer warriors.
    OtherHead,
    /// It has more rounds than its matches may have.
    Rounds,
    /// Out of memory.
    Memory,
}

/// Adds a part to those before it: that of this number, whose head is the same as that of the first but for its number.
pub fn join_part<A: Allocator + Copy>(
    alloc: A,
    standings: &mut Standings<A>,
    first: PartHead<'_>,
    number: u32,
    part: &PartRead<'_, A>,
) -> Result<(), NotTaken>
    ensures joined { OnOk result ((part_parts part.now).head ≡ numbered (head_parts first.entry) number) }
    ensures parts { OnOk result ((parts : List PartParts) → length parts + 1 ≡ number
        → AreJoined (head_parts first.entry) (length standings.old.counts) parts standings.old
        → AreJoined (head_parts first.entry) (length standings.old.counts) (parts ++ part_parts part.now ∷ []) standings.new) }
    ensures places { length standings.new.counts ≡ length standings.old.counts }
{
    if !is_part_of(first, number, part.head) {
        return Err(NotTaken::OtherHead);
    }
    let many = part.rows.len();
    if many != standings.places() {
        return Err(NotTaken::OtherHead);
    }
    if !has_room(standings.matches(), part.matches) {
        return Err(NotTaken::Rounds);
    }
    let Ok(counts) = tallies_of(alloc, part.rows.as_slice()) else {
        return Err(NotTaken::Memory);
    };
    if !are_few(counts.as_slice(), MOST_ROUNDS * part.matches) {
        return Err(NotTaken::Rounds);
    }
    standings.add_part(counts.as_slice(), part.matches);
    Ok(())
}

/// Whether a field may have so many matches together.
fn has_room(before: u64, more: u64) -> bool
    ensures { result ≡ true → before + more ≤ 4294967296 }
{
    before <= MOST_MATCHES && more <= MOST_MATCHES - before
}

/// Whether a head is that of the part of this number, and else the same as the first.
fn is_part_of(first: PartHead<'_>, number: u32, head: PartHead<'_>) -> bool
    ensures { result ≡ true → head_parts head.entry ≡ numbered (head_parts first.entry) number }
{
    head.number == number
        && head.count == first.count
        && head.settings == first.settings
        && head.field == first.field
}

/// The rounds of each warrior.
fn tallies_of<A: Allocator>(alloc: A, rows: &[Row<'_>]) -> Result<Vec<Tally, A>, AllocError>
    ensures { IfOk result (λ counts. counts.items ≡ map (λ (r : Row). r.tally) rows.now) }
{
    let mut counts = Vec::new(alloc);
    for row in rows {
        counts.push(row.tally)?;
    }
    Ok(counts)
}

/// Whether no warrior has more rounds than this.
fn are_few(counts: &[Tally], most: u64) -> bool
    ensures { result ≡ true → All (λ t. rounds_in t ≤ most) counts.now }
{
    for place in 0..counts.len() {
        let tally = &counts[place];
        if !is_few(*tally, most) {
            return false;
        }
    }
    true
}

/// Whether there are at most so many rounds.
fn is_few(tally: Tally, most: u64) -> bool
    ensures { result ≡ true → rounds_in tally ≤ most }
{
    if tally.won > most {
        return false;
    }
    let left = most - tally.won;
    if tally.lost > left {
        return false;
    }
    tally.tied <= left - tally.lost
}

//! The warriors of a field.

ghost use Rattle.std.specs.Prelude.{◌≡◌, ◌+◌, ◌≤◌, ◌++◌, ◌∷◌, [], length, All, OnOk, string_bytes};
ghost use Rattle.{war_types.specs.{Warrior.Fits, declared.settings.RawSettings.RawSettings}, koth_contests.specs.{Lines.entrant, Opponents.names_of}};
ghost use Rattle.koth_field.specs.Field.{entrants_of, EndsField, PutsMember};

use koth_commands::Status;
use koth_commands::trouble::Trouble;
use koth_contests::{Opponent, tell_none};
use std::alloc::{AllocError, Allocator};
use std::io::{Read, Write};
use std::rt::Files;
use war_types::{Settings, Warrior};

/// A warrior of a field, and what messages call its source.
#[derive(Drop)]
pub struct Member<A: Allocator> {
    pub file: String<A>,
    pub warrior: Warrior<A>,
}

/// Puts the warriors of these sources into a field that has none, in the order of the sources. A source that has no
/// warrior is left out, and standard error says why. The answer is `Done` if each has one, and else `Refused`; or
/// memory ran out.
pub fn field_of<R: Files, A: Allocator + Copy, I: Read, E: Write>(
    rt: &R,
    alloc: A,
    settings: &Settings,
    sources: &[Opponent<A>],
    members: &mut Vec<Member<A>, A>,
    input: &mut I,
    errors: &mut E,
) -> Status
    requires { members.old.items ≡ [] }
    ensures ends { EndsField settings.now (names_of sources.now) (entrants_of members.new.items) result
        (E.contents errors.old) (E.contents errors.new) }
    ensures fit { All (λ m. Fits settings.now m.warrior) members.new.items }
    ensures few { length members.new.items ≤ length sources.now }
{
    let mut status = Status::Done;
    for place in 0..sources.len() {
        let next = &sources[place];
        match put_member(rt, alloc, settings, next, members, input, errors) {
            Status::Done => {}
            Status::Refused => status = Status::Refused,
            failed => return failed,
        }
    }
    status
}

/// Puts the warrior of a source after the others of a field, or tells why it has none.
fn put_member<R: Files, A: Allocator + Copy, I: Read, E: Write>(
    rt: &R,
    alloc: A,
    settings: &Settings,
    source: &Opponent<A>,
    members: &mut Vec<Member<A>, A>,
    input: &mut I,
    errors: &mut E,
) -> Status
    requires { All (λ m. Fits settings.now m.warrior) members.old.items }
    ensures puts { PutsMember settings.now (string_bytes source.now.name)
        (entrants_of members.old.items) (entrants_of members.new.items) result
        (E.contents errors.old) (E.contents errors.new) }
    ensures fit { All (λ m. Fits settings.now m.warrior) members.new.items }
    ensures few { length members.new.items ≤ length members.old.items + 1 }
{
    let warrior = match source.warrior(rt, alloc, settings, input) {
        Ok(warrior) => warrior,
        Err(none) => return tell_none(alloc, settings, &none, errors),
    };
    match push_member(alloc, members, source.name.as_str(), warrior) {
        Ok(()) => Status::Done,
        Err(AllocError) => Trouble::memory().tell(alloc, errors),
    }
}

/// Puts a warrior after the others of a field.
fn push_member<A: Allocator + Copy>(
    alloc: A,
    members: &mut Vec<Member<A>, A>,
    file: &str,
    warrior: Warrior<A>,
) -> Result<(), AllocError>
    ensures put { OnOk result (entrants_of members.new.items
        ≡ entrants_of members.old.items ++ entrant file.now warrior ∷ []) }
    ensures fit { (s : RawSettings) → Fits s warrior → All (λ m. Fits s m.warrior) members.old.items
        → All (λ m. Fits s m.warrior) members.new.items }
    ensures few { length members.new.items ≤ length members.old.items + 1 }
{
    let file = String::from_str(alloc, file)?;
    members.push(Member { file, warrior })?;
    Ok(())
}

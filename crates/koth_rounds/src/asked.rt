//! The round that is asked for: by its number, or the first that ended in some way.

ghost use Rattle.std.specs.Prelude.{◌≡◌, ◌+◌, ◌-◌, ◌<◌, true, false, IfOk, MatchOption, option_map};
ghost use Rattle.{war_types.specs.Warrior.Fits, koth_commands.specs.{Told.TellsWord, Trouble.settings_word}};
ghost use Rattle.koth_rounds.specs.Asked.{has_round, may_have, IsFirstNumber, IsNumber};

use koth_commands::Status;
use koth_commands::trouble::Trouble;
use koth_contests::first_round;
use koth_words::Round;
use mars_core::{Arena, Outcome};
use std::alloc::{AllocError, Allocator};
use std::io::Write;
use war_types::{Settings, SettingsFault, Warrior};

/// Whether a match has a round of this number, counted from 1.
pub fn has_round(settings: &Settings, round: u32) -> bool
    ensures { result ≡ has_round settings.now round }
{
    1 <= round && round <= u32::from(settings.rounds())
}

/// The number of the round that is asked for, if it is one that the match doesn't have.
pub(crate) fn number_past(settings: &Settings, round: Round) -> Option<u32>
    ensures { MatchOption result (may_have settings.now round ≡ true)
        (λ number. may_have settings.now round ≡ false) }
{
    match round {
        Round::Number(number) if !has_round(settings, number) => Some(number),
        _ => None,
    }
}

/// Reports a round that a match of `rounds` rounds doesn't have, like settings that are refused. Rounds are counted
/// from 1.
pub(crate) fn refuse_round<A: Allocator, E: Write>(
    alloc: A,
    rounds: u32,
    round: u32,
    errors: &mut E,
) -> Status
    ensures status { result ≡ Status.Refused }
    ensures told { TellsWord (settings_word SettingsFault.Rounds) (E.contents errors.old) (E.contents errors.new) }
{
    Trouble::round(rounds, round).tell(alloc, errors)
}

/// The number of the round that is asked for, counted from 1; `None` if no round ended so.
pub(crate) fn number_of<A: Allocator + Copy, B: Allocator, C: Allocator>(
    alloc: A,
    settings: &Settings,
    older: &Warrior<B>,
    younger: &Warrior<C>,
    round: Round,
) -> Result<Option<u32>, AllocError>
    requires older { Fits settings.now older.now }
    requires younger { Fits settings.now younger.now }
    requires round { may_have settings.now round ≡ true }
    ensures { IfOk result (IsNumber settings.now older.now younger.now round) }
{
    match round {
        Round::Number(number) => Ok(Some(number)),
        Round::Lost => number_ended(alloc, settings, older, younger, Outcome::Second),
        Round::Won => number_ended(alloc, settings, older, younger, Outcome::First),
        Round::Tied => number_ended(alloc, settings, older, younger, Outcome::Tie),
    }
}

/// The number of the first round that ended so, counted from 1.
fn number_ended<A: Allocator + Copy, B: Allocator, C: Allocator>(
    alloc: A,
    settings: &Settings,
    older: &Warrior<B>,
    younger: &Warrior<C>,
    wanted: Outcome,
) -> Result<Option<u32>, AllocError>
    requires older { Fits settings.now older.now }
    requires younger { Fits settings.now younger.now }
    ensures { IfOk result (IsFirstNumber settings.now older.now younger.now wanted) }
{
    let mut arena = Arena::new(alloc, settings)?;
    let found = first_round(&mut arena, older, younger, settings, wanted);
    Ok(counted_from_1(found))
}

fn counted_from_1(place: Option<u16>) -> Option<u32>
    ensures { result ≡ option_map (λ n. n + 1) place }
{
    place.map(|place| u32::from(place) + 1)
}

/// The sentence that no round ended so.
pub(crate) fn none_told<A: Allocator + Copy>(
    alloc: A,
    settings: &Settings,
    round: Round,
) -> Result<Vec<u8, A>, AllocError> {
    let ended = match round {
        Round::Lost => "lost by A",
        Round::Won => "won by A",
        Round::Tied => "a tie",
        Round::Number(_) => "that one",
    };
    let text = format!(in alloc; "none of the {} rounds is {}\n", settings.rounds(), ended)?;
    Ok(text.into_bytes())
}

/// The place of a round, counted from 0. `round` counts from 1.
pub(crate) fn place_of(settings: &Settings, round: u32) -> u16
    requires { has_round settings.now round ≡ true }
    ensures place { result ≡ round - 1 }
    ensures has { result < settings.now.rounds }
{
    let _rounds = settings.rounds();
    (round - 1) as u16
}

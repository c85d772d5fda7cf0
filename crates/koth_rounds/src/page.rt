//! The page of a round, and the sentence that says how it ended, and why.

ghost use Rattle.std.specs.Prelude.{◌≡◌, ◌<◌, true, IfOk};
ghost use Rattle.{war_types.specs.Warrior.Fits, koth_watch.specs.Sentence.sentence_text, koth_rounds.specs.{Asked.has_round, Page.{told_of, IsRoundText, IsTold}}};
ghost use Rattle.koth_watch.specs.declared.shown.Form.TheVariants as forms;

use crate::asked::place_of;
use koth_replay::{Story, story_of};
use koth_watch::{Form, Told, put_sentence, round_page};
use mars_core::Arena;
use std::alloc::{AllocError, Allocator};
use war_types::{Settings, Warrior};

/// Most turns of a round that its page has: more than a round has under the default settings.
pub(crate) const MOST_TURNS: u32 = 200_000;

/// The page of a round, counted from 1, of the match of two warriors. The error is a lack of memory.
pub fn round_text<A: Allocator + Copy, B: Allocator, C: Allocator>(
    alloc: A,
    settings: &Settings,
    older: &Warrior<B>,
    younger: &Warrior<C>,
    round: u32,
) -> Result<Vec<u8, A>, AllocError>
    requires older { Fits settings.now older.now }
    requires younger { Fits settings.now younger.now }
    requires round { has_round settings.now round ≡ true }
    ensures { IfOk result (λ page. IsRoundText settings.now older.now younger.now round page.items) }
{
    let mut arena = Arena::new(alloc, settings)?;
    let told = told_round(&mut arena, settings, older, younger, round);
    page_told(alloc, &mut arena, settings, older, younger, round, &told)
}

/// What is said of a round, counted from 1.
pub(crate) fn told_round<A: Allocator, B: Allocator, C: Allocator>(
    arena: &mut Arena<A>,
    settings: &Settings,
    older: &Warrior<B>,
    younger: &Warrior<C>,
    round: u32,
) -> Told
    requires settings { arena.old.settings ≡ settings.now }
    requires older { Fits settings.now older.now }
    requires younger { Fits settings.now younger.now }
    requires round { has_round settings.now round ≡ true }
    ensures told { IsTold settings.now older.now younger.now round result }
    ensures settings { arena.new.settings ≡ arena.old.settings }
{
    let place = place_of(settings, round);
    let story = story_of(arena, older, younger, settings, place);
    told_of(settings, place, story)
}

/// What is said of a round, counted from 0, that ended so.
fn told_of(settings: &Settings, place: u16, story: Story) -> Told
    ensures { result ≡ told_of settings.now place story }
{
    Told {
        round: place,
        rounds: settings.rounds(),
        core: settings.core(),
        story,
    }
}

/// The page of a round, counted from 1, of which this is said.
pub(crate) fn page_told<A: Allocator + Copy, B: Allocator, C: Allocator>(
    alloc: A,
    arena: &mut Arena<A>,
    settings: &Settings,
    older: &Warrior<B>,
    younger: &Warrior<C>,
    round: u32,
    told: &Told,
) -> Result<Vec<u8, A>, AllocError>
    requires settings { arena.old.settings ≡ settings.now }
    requires older { Fits settings.now older.now }
    requires younger { Fits settings.now younger.now }
    requires round { has_round settings.now round ≡ true }
    requires told { IsTold settings.now older.now younger.now round told.now }
    ensures { IfOk result (λ page. IsRoundText settings.now older.now younger.now round page.items) }
{
    let place = place_of(settings, round);
    let replay = koth_replay::replay(alloc, arena, older, younger, settings, place, MOST_TURNS)?;
    round_page(alloc, older, younger, told, &replay)
}

/// The sentence of a round, counted from 1, of which this is said.
pub(crate) fn sentence_told<A: Allocator + Copy, B: Allocator, C: Allocator>(
    alloc: A,
    older: &Warrior<B>,
    younger: &Warrior<C>,
    told: &Told,
) -> Result<Vec<u8, A>, AllocError>
    ensures { IfOk result (λ text. text.items ≡ sentence_text forms.Plain older.now younger.now told.now) }
{
    let mut text = Vec::new(alloc);
    put_sentence(&mut text, Form::Plain, older, younger, told)?;
    Ok(text)
}

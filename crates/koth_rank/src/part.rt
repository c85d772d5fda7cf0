//! The part of a field's matches, as `--part` writes it.

ghost use Rattle.std.specs.Prelude.{◌≡◌, ◌++◌, length, All, IfOk, OnOk, string_bytes};
ghost use Rattle.{war_types.specs.Warrior.Fits, koth_field.specs.Field.entrants_of, koth_words.specs.Settings.given_as, koth_standings.specs.PartText.{part_text, rows_text}};
ghost use Rattle.koth_rank.specs.Part.{bounds_text, both_text, field_part, option_text, options_text, rows_of, sizes_text};

use koth_field::{Member, digest_of, label_of};
use koth_standings::{PartHead, Standings, put_end, put_head, put_row};
use koth_words::{Part, given_as};
use std::alloc::{AllocError, Allocator};
use war_types::{RawSettings, Settings};

/// The text of a part of a field: its head, the rounds of each member in the matches of the part, and how many matches
/// these are. The error is lack of memory.
pub(crate) fn part_of_field<A: Allocator + Copy>(
    alloc: A,
    settings: &Settings,
    members: &[Member<A>],
    both: bool,
    share: Part,
    standings: &Standings<A>,
) -> Result<Vec<u8, A>, AllocError>
    requires fit { All (λ m. Fits settings.now m.warrior) members.now }
    requires many { length standings.now.counts ≡ length members.now }
    ensures { IfOk result (λ text. text.items ≡ part_text (field_part settings.now both share.number share.count
        (entrants_of members.now) standings.now.counts standings.now.matches)) }
{
    let field = digest_of(alloc, settings, members)?;
    let options = options_text(alloc, settings, both)?;
    let mut text = Vec::new(alloc);
    put_head(
        &mut text,
        PartHead {
            number: share.number,
            count: share.count,
            settings: options.as_str(),
            field: field.as_str(),
        },
    )?;
    put_members(&mut text, alloc, members, standings)?;
    put_end(&mut text, standings.matches())?;
    Ok(text)
}

/// What the matches go by, as options.
fn options_text<A: Allocator + Copy>(
    alloc: A,
    settings: &Settings,
    both: bool,
) -> Result<String<A>, AllocError>
    ensures { IfOk result (λ text. string_bytes text ≡ options_text (given_as settings.now) both) }
{
    let given = given_as(settings);
    let mut text = String::new(alloc);
    put_sizes(&mut text, alloc, given)?;
    put_bounds(&mut text, alloc, given)?;
    text.push_str(both_text(both))?;
    Ok(text)
}

fn put_sizes<A: Allocator + Copy>(
    text: &mut String<A>,
    alloc: A,
    given: RawSettings,
) -> Result<(), AllocError>
    ensures { OnOk result (string_bytes text.new ≡ string_bytes text.old ++ sizes_text given) }
{
    put_option(text, alloc, "--core ", given.core)?;
    put_option(text, alloc, " --cycles ", given.cycles)?;
    put_option(text, alloc, " --processes ", given.processes)?;
    put_option(text, alloc, " --length ", given.length)?;
    put_option(text, alloc, " --distance ", given.distance)?;
    Ok(())
}

fn put_bounds<A: Allocator + Copy>(
    text: &mut String<A>,
    alloc: A,
    given: RawSettings,
) -> Result<(), AllocError>
    ensures { OnOk result (string_bytes text.new ≡ string_bytes text.old ++ bounds_text given) }
{
    put_option(text, alloc, " --rounds ", given.rounds)?;
    put_option(text, alloc, " --seed ", given.seed)?;
    put_option(text, alloc, " --read-limit ", given.read_limit)?;
    put_option(text, alloc, " --write-limit ", given.write_limit)?;
    Ok(())
}

/// Puts an option and its number.
fn put_option<A: Allocator + Copy>(
    text: &mut String<A>,
    alloc: A,
    name: &str,
    number: u32,
) -> Result<(), AllocError>
    ensures { OnOk result (string_bytes text.new ≡ string_bytes text.old ++ option_text name.now number) }
{
    let digits = format!(in alloc; "{}", number)?;
    text.push_str(name)?;
    text.push_str(digits.as_str())?;
    Ok(())
}

fn both_text(both: bool) -> &'static str
    ensures { result.now ≡ both_text both }
{
    if both { " --both" } else { "" }
}

/// Puts the line of each member.
fn put_members<A: Allocator + Copy>(
    text: &mut Vec<u8, A>,
    alloc: A,
    members: &[Member<A>],
    standings: &Standings<A>,
) -> Result<(), AllocError>
    requires { length standings.now.counts ≡ length members.now }
    ensures { OnOk result (text.new.items ≡ text.old.items
        ++ rows_text (rows_of (entrants_of members.now) standings.now.counts (length members.now))) }
{
    for place in 0..members.len() {
        let label = label_of(alloc, &members[place])?;
        put_row(text, standings.tally(place), label.as_slice())?;
    }
    Ok(())
}

//! The settings of a hill, as options.

ghost use Rattle.std.specs.Prelude.{◌≡◌, ◌++◌, IfOk, OnOk};
ghost use Rattle.koth_hills.specs.Settings.{bounds_text, option_text, seed_text, settings_text, sizes_text};

use koth_text::put_number;
use koth_words::given_as;
use std::alloc::{AllocError, Allocator};
use war_types::{RawSettings, Settings};

/// The settings of a hill as a line of options, which `koth` takes as they are: the seed among them only if that is
/// asked for. The error is lack of memory.
pub(crate) fn settings_text<A: Allocator>(
    alloc: A,
    settings: &Settings,
    with_seed: bool,
) -> Result<Vec<u8, A>, AllocError>
    ensures { IfOk result (λ text. text.items ≡ settings_text with_seed settings.now) }
{
    let given = given_as(settings);
    let mut text = Vec::new(alloc);
    match put_settings(&mut text, given, with_seed) {
        Ok(()) => Ok(text),
        Err(error) => Err(error),
    }
}

fn put_settings<A: Allocator>(
    text: &mut Vec<u8, A>,
    given: RawSettings,
    with_seed: bool,
) -> Result<(), AllocError>
    ensures { OnOk result (text.new.items ≡ text.old.items ++ sizes_text given ++ bounds_text given
        ++ seed_text with_seed given.seed) }
{
    put_sizes(text, given)?;
    put_bounds(text, given)?;
    put_seed(text, given.seed, with_seed)
}

fn put_sizes<A: Allocator>(text: &mut Vec<u8, A>, given: RawSettings) -> Result<(), AllocError>
    ensures { OnOk result (text.new.items ≡ text.old.items ++ sizes_text given) }
{
    put_option(text, b"--core ", given.core)?;
    put_option(text, b" --cycles ", given.cycles)?;
    put_option(text, b" --processes ", given.processes)?;
    put_option(text, b" --length ", given.length)?;
    put_option(text, b" --distance ", given.distance)
}

fn put_bounds<A: Allocator>(text: &mut Vec<u8, A>, given: RawSettings) -> Result<(), AllocError>
    ensures { OnOk result (text.new.items ≡ text.old.items ++ bounds_text given) }
{
    put_option(text, b" --rounds ", given.rounds)?;
    put_option(text, b" --capacity ", given.capacity)?;
    put_option(text, b" --read-limit ", given.read_limit)?;
    put_option(text, b" --write-limit ", given.write_limit)
}

/// Puts the seed, if that is asked for, and ends the line.
fn put_seed<A: Allocator>(
    text: &mut Vec<u8, A>,
    seed: u32,
    with_seed: bool,
) -> Result<(), AllocError>
    ensures { OnOk result (text.new.items ≡ text.old.items ++ seed_text with_seed seed) }
{
    if with_seed {
        put_option(text, b" --seed ", seed)?;
    }
    text.extend_from_slice(b"\n")
}

fn put_option<A: Allocator>(
    text: &mut Vec<u8, A>,
    name: &[u8],
    number: u32,
) -> Result<(), AllocError>
    ensures { OnOk result (text.new.items ≡ text.old.items ++ option_text name.now number) }
{
    text.extend_from_slice(name)?;
    put_number(text, u64::from(number))
}

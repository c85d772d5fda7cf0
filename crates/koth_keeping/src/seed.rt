//! The seed of a hill that is made: one that is drawn, and what the default one means.

ghost use Rattle.std.specs.Prelude.{◌≡◌, true, IfErr, IfOk, MatchResult};
ghost use Rattle.{koth_match.specs.Seeds.IsSeed, koth_files.specs.Trouble.IsOfHill, koth_keeping.specs.Seed.{seed_hint, seed_of, AreMade}};

use koth_commands::reason_of;
use koth_commands::trouble::Trouble;
use koth_words::DEFAULTS;
use std::io;
use std::random::RandomSource;
use war_types::{RawSettings, range_of};

/// How many seeds there are: they are 1 to this number.
const SEEDS: u64 = range_of!(seed, greatest);

/// Draws a seed, 1 to 2,147,483,646, from eight bytes of the source of random numbers. No seed comes up more often than
/// another by more than one part in 8,589,934,600. If the source fails, its error is the answer.
pub fn drawn_seed<R: RandomSource>(rt: &R) -> io::Result<u32>
    ensures { IfOk result IsSeed }
{
    let mut bytes = [0; 8];
    match rt.fill_bytes(&mut bytes) {
        Ok(()) => Ok(seed_of(u64::from_le_bytes(bytes))),
        Err(error) => Err(error),
    }
}

/// The same, or what is told if there are no random numbers.
pub(crate) fn new_seed<'t, R: RandomSource>(rt: &R) -> Result<u32, Trouble<'t>>
    ensures { MatchResult result IsSeed IsOfHill }
{
    match drawn_seed(rt) {
        Ok(seed) => Ok(seed),
        Err(error) => Err(Trouble::file("random numbers", reason_of(error.kind()))),
    }
}

/// The settings of a hill that is made: those that are given, with a seed that is drawn in place of theirs if
/// `draw_seed` says so. The trouble is that there are no random numbers.
pub fn made_settings<'t, R: RandomSource>(
    rt: &R,
    given: RawSettings,
    draw_seed: bool,
) -> Result<RawSettings, Trouble<'t>>
    ensures made { IfOk result (AreMade draw_seed given) }
    ensures no_seed { IfErr result (λ trouble. (draw_seed ≡ true) × IsOfHill trouble) }
{
    if !draw_seed {
        return Ok(given);
    }
    match new_seed(rt) {
        Ok(seed) => Ok(RawSettings { seed, ..given }),
        Err(trouble) => Err(trouble),
    }
}

/// The seed for a random number of 64 bits.
fn seed_of(number: u64) -> u32
    ensures value { result ≡ seed_of number }
    ensures seed { IsSeed result }
{
    1 + (number % SEEDS) as u32
}

/// What a hill's seed means, as a line for people, if everybody knows that seed: it is the default. Else there is no
/// text.
pub fn seed_hint(seed: u32) -> &'static str
    ensures { result.now ≡ seed_hint seed }
{
    if seed == DEFAULTS.seed {
        "this hill has seed 1, the default, so authors can write warriors for its very positions; koth create --draw-seed draws another seed\n"
    } else {
        ""
    }
}

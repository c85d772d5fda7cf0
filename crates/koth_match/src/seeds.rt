//! The seeds of a match's rounds, and the position of the younger warrior.

ghost use Rattle.std.specs.Prelude.{◌≡◌};
ghost use Rattle.koth_match.specs.Seeds.{next_seed, position, seed_of_round, IsPosition, IsSeed};

use war_types::Settings;

/// What a seed is multiplied by, modulo 2,147,483,647, to give the next one.
const MULTIPLIER: u32 = 16_807;

const MODULUS: u32 = 2_147_483_647;

/// The modulus is the multiplier times this, and `REST` more.
const QUOTIENT: u32 = 127_773;

const REST: u32 = 2_836;

/// The seed of the round after one with this seed, from 1 to 2,147,483,646 as all seeds are.
pub fn next_seed(seed: u32) -> u32
    requires { IsSeed seed }
    ensures value { result ≡ next_seed seed }
    ensures seed { IsSeed result }
{
    let more = MULTIPLIER * (seed % QUOTIENT);
    let less = REST * (seed / QUOTIENT);
    if more < less {
        more + MODULUS - less
    } else {
        more - less
    }
}

/// The seed of a round, counted from 0.
pub fn seed_of_round(settings: &Settings, round: u16) -> u32
    ensures value { result ≡ seed_of_round settings.now round }
    ensures seed { IsSeed result }
{
    let mut seed = settings.seed();
    for _round in 0..round {
        seed = next_seed(seed);
    }
    seed
}

/// The address at which the younger warrior is loaded in a round with this seed: at least the settings' distance
/// away from the older one, which is at 0, on both sides.
pub fn position(seed: u32, settings: &Settings) -> u16
    ensures value { result ≡ position settings.now seed }
    ensures bounds { IsPosition settings.now result }
{
    let distance = settings.distance();
    let positions = u32::from(settings.core()) + 1 - 2 * u32::from(distance);
    distance + (seed % positions) as u16
}

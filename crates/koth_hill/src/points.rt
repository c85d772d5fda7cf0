//! Points, from the results that are there.

ghost use Rattle.std.specs.Prelude.{◌≡◌, ◌≤◌, ◌<◌, length, map, position, slice_get, ◌==◌};
ghost use Rattle.{koth_match.specs.Match.rounds_in, koth_hill.specs.{Hill.{older_points, younger_points}, Step.is_entry}};
ghost use Rattle.koth_hill.specs.Standings.{entries_in, result_in_standings, kept_in, points_between, points_among, left, scores_among, AreStandings, entry_at, standing_parts};

use crate::bouts::NO_ROUNDS;
use crate::score::{Score, Scores};
use crate::standings::Standing;
use koth_match::Bout;

/// The result of two entries; `None` if there is none.
pub(crate) fn result_of(standings: &[Standing<'_>], older: u64, younger: u64) -> Option<Bout>
    ensures { result ≡ result_in_standings (map standing_parts standings.now) older younger }
{
    let older = place_of(standings, older)?;
    let younger = place_of(standings, younger)?;
    result_at(standings[younger].bouts, older)
}

fn result_at(bouts: &[Bout], place: usize) -> Option<Bout>
    ensures { result ≡ slice_get bouts.now place }
{
    bouts.get(place).copied()
}

fn place_of(standings: &[Standing<'_>], entry: u64) -> Option<usize>
    ensures { result ≡ position (λ s. s.entry == entry) standings.now }
{
    standings
        .iter()
        .position(|standing| standing.entry == entry)
}

/// 3 points for each round that the older warrior won, 1 for each tie.
fn older_points(bout: Bout) -> u32
    requires { rounds_in bout ≤ 1000 }
    ensures value { result ≡ older_points bout }
    ensures small { result ≤ 3000 }
{
    3 * u32::from(bout.older_wins) + u32::from(bout.ties)
}

/// 3 points for each round that the younger warrior won, 1 for each tie.
fn younger_points(bout: Bout) -> u32
    requires { rounds_in bout ≤ 1000 }
    ensures value { result ≡ younger_points bout }
    ensures small { result ≤ 3000 }
{
    3 * u32::from(bout.younger_wins) + u32::from(bout.ties)
}

/// What the one at place `i` earns in its match with the one at place `j`, the earlier entry being the older warrior.
/// No one fights itself.
fn points_between(standings: &[Standing<'_>], i: usize, j: usize) -> u32
    requires standings { AreStandings (map standing_parts standings.now) }
    requires one { i < length standings.now }
    requires other { j < length standings.now }
    ensures value { result ≡ points_between (kept_in (map standing_parts standings.now))
        (entry_at (map standing_parts standings.now) i) (entry_at (map standing_parts standings.now) j) }
    ensures small { result ≤ 3000 }
{
    if standings[i].entry < standings[j].entry {
        older_points(result_between(standings, i, j))
    } else if standings[j].entry < standings[i].entry {
        younger_points(result_between(standings, j, i))
    } else {
        0
    }
}

/// The result of those at two places, without rounds if there is none.
fn result_between(standings: &[Standing<'_>], older: usize, younger: usize) -> Bout
    requires standings { AreStandings (map standing_parts standings.now) }
    requires older { older < length standings.now }
    requires younger { younger < length standings.now }
    ensures value { result ≡ kept_in (map standing_parts standings.now)
        (entry_at (map standing_parts standings.now) older) (entry_at (map standing_parts standings.now) younger) }
    ensures rounds { rounds_in result ≤ 1000 }
{
    match result_at(standings[younger].bouts, older) {
        Some(bout) => bout,
        None => NO_ROUNDS,
    }
}

pub(crate) fn is_entry(entry: u64, out: Option<u64>) -> bool
    ensures { result ≡ is_entry entry out }
{
    match out {
        None => false,
        Some(other) => entry == other,
    }
}

/// What the one at a place earns against these but for the one that is out.
pub(crate) fn points(standings: &[Standing<'_>], out: Option<u64>, place: usize) -> u32
    requires standings { AreStandings (map standing_parts standings.now) }
    requires few { length standings.now ≤ 21 }
    requires place { place < length standings.now }
    ensures { result ≡ points_among (kept_in (map standing_parts standings.now))
        (left out (entries_in (map standing_parts standings.now))) (entry_at (map standing_parts standings.now) place) }
{
    let mut sum = 0;
    for (i, standing) in standings.iter().enumerate() {
        if !is_entry(standing.entry, out) {
            sum += points_between(standings, place, i);
        }
    }
    sum
}

/// The scores of these but for the one that is out.
pub(crate) fn scores(standings: &[Standing<'_>], out: Option<u64>) -> Scores
    requires standings { AreStandings (map standing_parts standings.now) }
    requires few { length standings.now ≤ 21 }
    ensures { result ≡ scores_among (kept_in (map standing_parts standings.now))
        (left out (entries_in (map standing_parts standings.now))) }
{
    let mut scores = Scores::new();
    for (i, standing) in standings.iter().enumerate() {
        if !is_entry(standing.entry, out) {
            scores.push(Score {
                entry: standing.entry,
                points: points(standings, out, i),
            });
        }
    }
    scores
}

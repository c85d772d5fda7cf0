//! Who falls, and what a challenger is told.

ghost use Rattle.std.specs.Prelude.{◌≡◌, ◌≤◌, length, map};
ghost use Rattle.koth_hill.specs.Standings.{AreStandings, IsLast, judged_among, falling_among, fallen_among, placed_among, standing_parts};

use crate::bouts::Bouts;
use crate::points::{is_entry, points, scores};
use crate::score::{Score, last_among, rank_among};
use crate::standings::Standing;
use crate::verdict::Verdict;

/// The verdict on a challenger, which is last of these, on a hill of this capacity.
pub(crate) fn judged(standings: &[Standing<'_>], capacity: usize, own: Standing<'_>) -> Verdict
    requires standings { AreStandings (map standing_parts standings.now) }
    requires few { length standings.now ≤ 21 }
    requires own { IsLast standings.now own.entry }
    requires bouts { length own.bouts.now ≤ 20 }
    ensures { result ≡ judged_among (map standing_parts standings.now) capacity (standing_parts own.entry) }
{
    let falls = falling(standings, capacity);
    if is_entry(own.entry, falls) {
        fallen(standings, own)
    } else {
        placed(standings, own, falls)
    }
}

/// The entry that falls, if there are more than the hill holds.
fn falling(standings: &[Standing<'_>], capacity: usize) -> Option<u64>
    requires standings { AreStandings (map standing_parts standings.now) }
    requires few { length standings.now ≤ 21 }
    ensures { result ≡ falling_among (map standing_parts standings.now) capacity }
{
    if standings.len() <= capacity {
        return None;
    }
    let all_scores = scores(standings, None);
    last_among(all_scores.as_slice())
}

/// The verdict on a challenger that falls.
fn fallen(standings: &[Standing<'_>], own: Standing<'_>) -> Verdict
    requires standings { AreStandings (map standing_parts standings.now) }
    requires few { length standings.now ≤ 21 }
    requires own { IsLast standings.now own.entry }
    requires bouts { length own.bouts.now ≤ 20 }
    ensures { result ≡ fallen_among (map standing_parts standings.now) (standing_parts own.entry) }
{
    Verdict {
        entry: own.entry,
        stays: false,
        falls: Some(own.entry),
        score: points(standings, None, standings.len() - 1),
        rank: 0,
        bouts: Bouts::of(own.bouts),
    }
}

/// The verdict on a challenger that stays.
fn placed(standings: &[Standing<'_>], own: Standing<'_>, falls: Option<u64>) -> Verdict
    requires standings { AreStandings (map standing_parts standings.now) }
    requires few { length standings.now ≤ 21 }
    requires own { IsLast standings.now own.entry }
    requires bouts { length own.bouts.now ≤ 20 }
    ensures { result ≡ placed_among (map standing_parts standings.now) (standing_parts own.entry) falls }
{
    let score = points(standings, falls, standings.len() - 1);
    let all_scores = scores(standings, falls);
    let rank = rank_among(
        all_scores.as_slice(),
        Score {
            entry: own.entry,
            points: score,
        },
    );
    Verdict {
        entry: own.entry,
        stays: true,
        falls,
        score,
        rank,
        bouts: Bouts::of(own.bouts),
    }
}

//! Rounds that one entry won, lost and tied.

ghost use Rattle.std.specs.Prelude.{◌≡◌, ◌<◌, ◌≤◌, length, slice_index};
ghost use Rattle.{koth_hill.specs.Kept.entries_of, koth_text.specs.Tally.{of_older, of_younger}, koth_views.specs.Tally.{against_all, between, kept_of_two, no_tally}};

use koth_hill::Hill;
use koth_match::Bout;
use koth_text::Tally;
use std::alloc::Allocator;

pub(crate) const NO_ROUNDS: Bout = Bout {
    older_wins: 0,
    younger_wins: 0,
    ties: 0,
};

const NO_TALLY: Tally = Tally {
    won: 0,
    lost: 0,
    tied: 0,
};

/// The rounds of one entry in its match against another, as the hill keeps them; no rounds if there was no match.
pub fn between<B: Allocator>(hill: &Hill<B>, one: u64, other: u64) -> Tally
    ensures value { result ≡ between hill.now one other }
    ensures won { result.won ≤ 65535 }
    ensures lost { result.lost ≤ 65535 }
    ensures tied { result.tied ≤ 65535 }
{
    if one < other {
        Tally::of_older(kept_of_two(hill, one, other))
    } else if other < one {
        Tally::of_younger(kept_of_two(hill, other, one))
    } else {
        NO_TALLY
    }
}

/// The rounds of one entry in its matches against all on the hill: the sums over these.
pub fn against_all<B: Allocator>(hill: &Hill<B>, one: u64) -> Tally
    ensures { result ≡ against_all hill.now one }
{
    let mut won = 0;
    let mut lost = 0;
    let mut tied = 0;
    for place in 0..hill.len() {
        let match_of_two = between(hill, one, entry_at(hill, place));
        won += match_of_two.won;
        lost += match_of_two.lost;
        tied += match_of_two.tied;
    }
    Tally { won, lost, tied }
}

/// The result that the hill keeps of two entries, the earlier first.
fn kept_of_two<B: Allocator>(hill: &Hill<B>, older: u64, younger: u64) -> Bout
    ensures { result ≡ kept_of_two hill.now older younger }
{
    match hill.bout(older, younger) {
        Some(bout) => bout,
        None => NO_ROUNDS,
    }
}

/// The entry of the warrior at a place on the hill, in the order in which they entered.
pub(crate) fn entry_at<B: Allocator>(hill: &Hill<B>, place: usize) -> u64
    requires { place < length hill.now.members }
    ensures { result ≡ slice_index (entries_of hill.now.members) place }
{
    match hill.member(place) {
        Some(member) => member.entry,
        None => 0,
    }
}

//! How many turns of a round are kept.

use crate::expecting::expect_same;
use crate::making::{settings_of, warrior};
use koth_replay::{Replay, replay};
use mars_core::{Arena, Outcome};
use std::alloc::{AllocError, Global};
use std::process::Abort;
use tests_fixtures::{DIE, Refusing, SMALL, STAY};

/// How many turns a replay has, whether it is cut, and who has won.
type Kept = (usize, bool, Outcome);

fn kept_of(found: Result<Replay<&Refusing<Global>>, AllocError>) -> Option<Kept> {
    match found {
        Ok(replay) => {
            let kept = (replay.turns(), replay.is_cut(), replay.outcome());
            drop(replay);
            Some(kept)
        }
        Err(AllocError) => None,
    }
}

/// The same of a round of one that loses at once and one that stays, with `most` turns kept at most, if there is memory
/// for it. All else is in `calm`.
pub(crate) fn replayed(
    rt: &impl Abort,
    calm: &Refusing<Global>,
    memory: &Refusing<Global>,
    round: u16,
    most: u32,
) -> Option<Kept> {
    let settings = settings_of(rt, SMALL);
    assert!(rt; round < settings.rounds(), "there is no such round");
    let older = warrior(calm, &[DIE], &settings).expect(rt, "it fits");
    let younger = warrior(calm, &[STAY], &settings).expect(rt, "it fits");
    let mut arena = Arena::new(calm, &settings).expect(rt, "there is memory");
    let found = kept_of(replay(memory, &mut arena, &older, &younger, &settings, round, most));
    drop(arena);
    drop(younger);
    drop(older);
    found
}

/// How many turns are kept at most, and what that leaves of a round of two turns.
static KEPT: [(u32, Kept); 4] = [
    (0, (0, true, Outcome::Second)),
    (1, (1, true, Outcome::Second)),
    (2, (2, false, Outcome::Second)),
    (3, (2, false, Outcome::Second)),
];

/// In the second round the younger one moves first.
#[test]
fn as_many_turns_as_are_kept(rt: HostRuntime) {
    let memory = Refusing::new(rt.alloc());
    for row in &KEPT {
        let (most, due) = *row;
        let found = replayed(&rt, &memory, &memory, 1, most);
        expect_same(&rt, &found, &Some(due), format_args!("{most}"));
    }
    drop(memory);
}

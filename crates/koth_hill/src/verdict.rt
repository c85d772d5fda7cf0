//! What becomes of a challenger.

ghost use Rattle.std.specs.Prelude.{◌≡◌};

use crate::bouts::Bouts;
use koth_match::Bout;

/// What becomes of a challenger, as `Hill::judge` finds it.
#[derive(Drop)]
pub struct Verdict {
    /// The number of its entry: 1 and the number of warriors ever judged.
    pub entry: u64,
    /// Whether it stays on the hill.
    pub stays: bool,
    /// The entry that falls, the challenger's own if it does not stay; `None` if the hill has room.
    pub falls: Option<u64>,
    /// Its points: on the hill as it is then, if it stays, and against all on the hill, if it falls.
    pub score: u32,
    /// Its rank on the hill as it is then, from 1 on, and 0 if it falls.
    pub rank: u32,
    pub(crate) bouts: Bouts,
}

impl Verdict {
    /// Its matches with those on the hill, who are older, by their rising entries.
    pub fn bouts(&self) -> &[Bout]
        ensures { result.now ≡ self.now.bouts }
    {
        self.bouts.as_slice()
    }
}

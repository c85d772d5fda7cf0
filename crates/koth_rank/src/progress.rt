//! How far the matches of a field have come, for people who wait for its table.

ghost use Rattle.{koth_commands.specs.Told.WritesSome, koth_contests.specs.Met.Notes};

use koth_commands::write_whole;
use koth_words::View;
use std::alloc::Allocator;
use std::io::Write;
use std::rt::Clock;
use std::time::Duration;

/// Milliseconds between two lines of progress, at least.
const BETWEEN: u64 = 500;

/// Matches that were fought, matches in all, and the times at which they began and at which that was told.
#[derive(Drop)]
pub(crate) struct Progress {
    done: u64,
    all: u64,
    begun: Option<Duration>,
    told: Option<Duration>,
}

impl Progress {
    /// Before the first match of part `number` of `count` of a field of this many places.
    pub(crate) fn new<R: Clock>(rt: &R, places: usize, number: u32, count: u32) -> Progress {
        let now = rt.monotonic().ok();
        Progress {
            done: 0,
            all: matches_of(places as u64, u64::from(number), u64::from(count)),
            begun: now,
            told: now,
        }
    }

    /// One match more was fought: says so in the view for people, at most twice a second. The next line is written over
    /// it.
    pub(crate) fn tell<R: Clock, A: Allocator, E: Write>(
        &mut self,
        rt: &R,
        alloc: A,
        view: View,
        errors: &mut E,
    )
        ensures { Notes view (E.contents errors.old) (E.contents errors.new) }
    {
        if let View::Table = view {
            self.tell_people(rt, alloc, errors);
        }
    }

    fn tell_people<R: Clock, A: Allocator, E: Write>(&mut self, rt: &R, alloc: A, errors: &mut E)
        ensures { WritesSome (E.contents errors.old) (E.contents errors.new) }
    {
        self.done = self.done.saturating_add(1);
        if let Some(minutes) = self.next_told(rt) {
            tell_matches(alloc, self.done, self.all, minutes, errors);
        }
    }

    /// The minutes that are left, if half a second has passed since they were told.
    fn next_told<R: Clock>(&mut self, rt: &R) -> Option<u64> {
        let now = rt.monotonic().ok()?;
        if now.saturating_sub(self.told?) < Duration::from_millis(BETWEEN) {
            return None;
        }
        self.told = Some(now);
        Some(self.minutes_left(now.saturating_sub(self.begun?)))
    }

    /// How many minutes the other matches take if they go on as they went so far, rounded up.
    fn minutes_left(&self, passed: Duration) -> u64 {
        let seconds = passed.as_secs();
        let left = self.all.saturating_sub(self.done);
        match seconds.saturating_mul(left).checked_div(self.done) {
            Some(seconds) => seconds.saturating_add(59) / 60,
            None => 0,
        }
    }
}

/// Writes how many matches were fought, of how many, and the minutes that are left.
fn tell_matches<A: Allocator, E: Write>(alloc: A, done: u64, all: u64, minutes: u64, errors: &mut E)
    ensures { WritesSome (E.contents errors.old) (E.contents errors.new) }
{
    if let Ok(text) = format!(in alloc; "match {} of {}, minutes left: {} \r", done, all, minutes) {
        let _ = write_whole(errors, text.as_bytes());
    }
}

/// How many matches a part of a field has.
fn matches_of(places: u64, number: u64, count: u64) -> u64 {
    let all = places.saturating_mul(places.saturating_sub(1)) / 2;
    match all
        .saturating_add(count.saturating_sub(number))
        .checked_div(count)
    {
        Some(matches) => matches,
        None => 0,
    }
}

//! The places of a field by points.

ghost use Rattle.std.specs.Prelude.{◌≡◌, IfOk};
ghost use Rattle.koth_standings.specs.Ranking.{keys_of, places_of, IsRanking};

use crate::standings::Standings;
use std::alloc::{AllocError, Allocator};
use std::cmp::Reverse;

impl<A: Allocator> Standings<A> {
    /// The places of the field by points, and of equals the earlier first. The error is lack of memory.
    pub fn ranking<B: Allocator + Copy>(&self, alloc: B) -> Result<Vec<usize, B>, AllocError>
        ensures { IfOk result (λ ranked. IsRanking self.now.counts ranked.items) }
    {
        let mut keys = self.keys(alloc)?;
        keys.sort()?;
        places_of(alloc, keys.as_slice())
    }

    /// The points and the place of each warrior, in the order of places.
    fn keys<B: Allocator>(&self, alloc: B) -> Result<Vec<(Reverse<u64>, usize), B>, AllocError>
        ensures { IfOk result (λ keys. keys.items ≡ keys_of self.now.counts) }
    {
        let mut keys = Vec::new(alloc);
        for place in 0..self.places() {
            keys.push((Reverse(self.tally(place).points()), place))?;
        }
        Ok(keys)
    }
}

/// The places of these keys.
fn places_of<B: Allocator>(
    alloc: B,
    keys: &[(Reverse<u64>, usize)],
) -> Result<Vec<usize, B>, AllocError>
    ensures { IfOk result (λ places. places.items ≡ places_of keys.now) }
{
    let mut places = Vec::new(alloc);
    for key in keys {
        places.push(key.1)?;
    }
    Ok(places)
}

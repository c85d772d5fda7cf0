//! The next of some addresses, in ascending order.

ghost use Rattle.std.specs.Prelude.{◌+◌, ◌<◌};
ghost use Rattle.koth_replay.specs.Code.{IsNearest};

/// The index of the least of these addresses that is `from` or above; `None` if all are below.
pub(crate) fn nearest(addresses: &[u16; 8], from: u16) -> Option<usize>
    ensures { IsNearest 8 addresses.now from result }
{
    let mut best = None;
    for place in 0..8 {
        best = nearer(addresses, from, place, best);
    }
    best
}

/// The same of the addresses up to this index, by the best one before it.
fn nearer(addresses: &[u16; 8], from: u16, place: usize, best: Option<usize>) -> Option<usize>
    requires place { place < 8 }
    requires best { IsNearest place addresses.now from best }
    ensures { IsNearest (place + 1) addresses.now from result }
{
    if addresses[place] < from {
        return best;
    }
    match best {
        None => Some(place),
        Some(other) => {
            if addresses[place] < addresses[other] {
                Some(place)
            } else {
                best
            }
        }
    }
}

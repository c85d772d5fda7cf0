//! Places that are given to others: of those that may lose theirs the one that made no use of it for longest.

ghost use Rattle.std.specs.Prelude.{◌≡◌, ◌↔◌, IsTrue};
ghost use Rattle.koth_seats.specs.Seats.{longer, IsUnused};

/// How long a place is kept while another waits, in milliseconds.
#[derive(Clone, Copy)]
pub struct Keeping {
    /// If no byte came.
    pub unspoken: u64,
    /// If bytes came.
    pub unused: u64,
}

impl Keeping {
    /// Whether a place of which no use was made since this time may be given to another.
    pub fn is_over(self, now: u64, has_spoken: bool, since: u64) -> bool
        ensures { IsTrue result ↔ IsUnused self.unspoken self.unused now has_spoken since }
    {
        let passed = now.saturating_sub(since);
        (!has_spoken && passed >= self.unspoken) || passed >= self.unused
    }

    /// Milliseconds until it may be given to another; `unused` if it may be already.
    pub fn until(self, now: u64, has_spoken: bool, since: u64) -> u64 {
        let most = if has_spoken {
            self.unused
        } else {
            self.unspoken
        };
        match most.saturating_sub(now.saturating_sub(since)) {
            0 => self.unused,
            left => left,
        }
    }
}

/// Of two with their numbers the one that made use of its place longer ago.
pub fn longer(longest: Option<(usize, u64)>, number: usize, since: u64) -> Option<(usize, u64)>
    ensures { result ≡ longer longest number since }
{
    match longest {
        Some((_, other)) if other <= since => longest,
        _ => Some((number, since)),
    }
}

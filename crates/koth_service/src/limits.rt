//! How many a service serves.

/// How many peers and browsers a service serves.
#[derive(Clone, Copy, Debug, PartialEq, Eq)]
pub struct Limits {
    /// How many peers are served at once at most.
    pub peers: usize,
    /// How many of these may have an address of one host, if that is limited, and how many of the browsers.
    pub peers_per_address: Option<u32>,
    /// How many browsers are served at once at most.
    pub browsers: usize,
    /// After how many sessions of peers the service ends, if it does.
    pub connections: Option<u32>,
}

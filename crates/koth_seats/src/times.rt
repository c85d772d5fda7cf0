//! How long a peer is waited for, in milliseconds.

/// How long a peer may be silent, with no byte in or out, until it is disconnected.
pub const PATIENCE: u64 = 60_000;

/// How long a peer of which no byte came keeps its place, if all places are taken and another peer waits.
pub const UNSPOKEN: u64 = 2_000;

/// How long a peer keeps its place after its last whole line, and after its last command that was carried out, if all
/// places are taken and another peer waits.
pub const UNUSED: u64 = 60_000;

/// How long a browser of which no byte came keeps its slot, if all slots are taken and another browser waits.
pub const UNHEARD: u64 = 250;

/// How long a browser keeps its slot until its request is whole, if all slots are taken and another browser waits.
pub const UNASKED: u64 = 2_000;

/// How long what still comes from a peer is thrown away at the end of its session.
pub const DRAIN: u64 = 1_000;

/// The most bytes that are thrown away then.
pub const DRAINED_MOST: usize = 65_536;

/// How long after it failed an accept is tried again.
pub const RETRY: u64 = 100;

/// How long a browser may take until its request is whole.
pub const ASKING: u64 = 10_000;

/// How long a browser waits for its answer at most, and how long it may take until that went out.
pub const ANSWERING: u64 = 60_000;

/// How long others are served at most until a submission in progress has its next step.
pub const SHARE: u64 = 20;

/// How long a step of a submission may take: one that took longer is followed by one of half as many turns.
pub const LONG_STEP: u64 = 25;

/// How long a step takes at least that isn't followed by one of twice as many turns.
pub const SHORT_STEP: u64 = 10;

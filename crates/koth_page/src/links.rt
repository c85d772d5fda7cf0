//! What leads from the page of a hill to others.

/// What the results of matches on a page lead to.
#[derive(Clone, Copy, PartialEq, Eq)]
pub enum Links {
    /// To nothing: the page is a file of its own.
    None,
    /// To the first round of each match, as a service shows it: `/replay/OLDER/YOUNGER/1` by the entry numbers of the
    /// two.
    Rounds,
}

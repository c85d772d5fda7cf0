//! What the page of a hill says that the hill doesn't know.

/// The title of a hill's page, if no other is given.
pub const TITLE: &[u8] = b"King of the Hill";

/// What the page of a hill says that the hill doesn't know.
#[derive(Clone, Copy)]
pub struct Sign<'t> {
    /// The hill's title.
    pub title: &'t [u8],
    /// Where peers submit, if the page says so.
    pub address: Option<Address<'t>>,
}

/// Where peers submit, in the two ways in which commands take it.
#[derive(Clone, Copy)]
pub struct Address<'t> {
    /// `HOST:PORT`
    pub joined: &'t [u8],
    /// `HOST PORT`
    pub apart: &'t [u8],
}

//! What command lines ask for of a hill.

use crate::requests::{Source, View};

/// The file of a new hill.
#[derive(Clone, Copy)]
pub struct Creation<'w> {
    /// Created if missing.
    pub hill: &'w str,
    /// Whether what the file has is replaced.
    pub overwrite: bool,
    /// Whether its seed is drawn, in place of that of the settings.
    pub draw_seed: bool,
}

/// The file of a hill, and a source for it.
#[derive(Clone, Copy)]
pub struct Submission<'w> {
    pub hill: &'w str,
    pub source: Source<'w>,
    /// The layout that is asked for, if one is.
    pub view: Option<View>,
    /// Seconds for which the hill's lock is tried again if another program has it, at most 3,600; 0 if that isn't asked
    /// for.
    pub wait: u32,
}

/// The way to a hill elsewhere.
#[derive(Clone, Copy)]
pub enum Way<'w> {
    /// A connection to this address and port, and the seconds for which nothing may come from there, 1 to 86,400.
    To(&'w str, u32),
    /// Standard input and output, which lead to a session.
    Pipe,
}

/// A source that is sent to a hill elsewhere.
#[derive(Clone, Copy)]
pub struct Sent<'w> {
    pub way: Way<'w>,
    /// Not the input if the way is a pipe.
    pub source: Source<'w>,
    /// The layout that is asked for, if one is.
    pub view: Option<View>,
}

/// A hill elsewhere whose table is written.
#[derive(Clone, Copy)]
pub struct ShownAt<'w> {
    /// Its address and port.
    pub to: &'w str,
    /// The seconds for which nothing may come from there, 1 to 86,400.
    pub timeout: u32,
    /// The layout that is asked for, if one is.
    pub view: Option<View>,
}

/// The file of a hill that is looked over.
#[derive(Clone, Copy)]
pub struct Audited<'w> {
    pub hill: &'w str,
    /// The layout that is asked for, if one is.
    pub view: Option<View>,
}

/// The files of a hill and of its copy.
#[derive(Clone, Copy)]
pub struct Copied<'w> {
    pub hill: &'w str,
    /// Nothing may have this name.
    pub new: &'w str,
    /// Whether its kept results are looked at first.
    pub audit: bool,
}

/// The files of a hill and of a new one with another seed.
#[derive(Clone, Copy)]
pub struct Reseeded<'w> {
    pub hill: &'w str,
    /// Nothing may have this name.
    pub new: &'w str,
    /// The seed of the new one; one is drawn if it is `None`.
    pub seed: Option<u32>,
}

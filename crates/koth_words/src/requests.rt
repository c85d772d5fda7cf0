//! What command lines ask for.

ghost use Rattle.std.specs.Prelude.{◌≡◌};
ghost use Rattle.koth_words.specs.Words.{given_of};

use crate::hills::{Audited, Copied, Creation, Reseeded, Sent, ShownAt, Submission};
use crate::serving::{Service, Session};
use crate::settings::Given;
use war_types::RawSettings;

/// What a command line asks for.
#[derive(Drop)]
pub enum Request<'w> {
    /// `asm`: assemble a source under these settings, and write its load text.
    Asm(Given<'w>, Assembled<'w>),
    /// `check`: assemble sources under these settings, and report what is wrong with them.
    Check(Given<'w>, Checked<'w>),
    /// `fight`: play matches under these settings, and write their counts.
    Fight(Given<'w>, Fighters<'w>),
    /// `fight` with `--many`: play the matches of each warrior that comes by standard input, and write their counts.
    Many(Given<'w>, Candidates<'w>),
    /// `create`: create a hill with these settings in a file.
    Create(Given<'w>, Creation<'w>),
    /// `submit`: submit a source to a hill, and write its reply.
    Submit(Submission<'w>),
    /// `submit` with `--to` or `--pipe`: submit a source to a hill elsewhere, which has these settings.
    SubmitTo(Given<'w>, Sent<'w>),
    /// `show`: write the table of a hill.
    Show(Shown<'w>),
    /// `show` with `--to`: write the table of a hill elsewhere.
    ShowTo(ShownAt<'w>),
    /// `serve`: serve sessions on a hill, which is created with these settings if that is asked for and there is none.
    Serve(RawSettings, Service<'w>),
    /// `session`: serve one session on a hill over standard input and output.
    Session(Session<'w>),
    /// `audit`: play the match of every pair on a hill again, and write whether each kept result is right.
    Audit(Audited<'w>),
    /// `migrate`: move a hill of the old format to a new file.
    Migrate(Migration<'w>),
    /// `page`: write the page of the hill in this file.
    Page(&'w str),
    /// `replay`: write the page of one round of a match under these settings.
    Replay(Given<'w>, Watched<'w>),
    /// `trace`: write the turns of one round of a match under these settings.
    Trace(Given<'w>, Traced<'w>),
    /// `try`: write what a submission would be answered, with this definition in its source if one is given.
    Try(Submission<'w>, Option<&'w str>),
    /// `copy`: copy a hill to a new file.
    Copy(Copied<'w>),
    /// `reseed`: make a new hill with another seed, and submit the warriors of a hill to it.
    Reseed(Reseeded<'w>),
    /// `rank`: play the match of each two warriors of a field under these settings, and write the warriors by points.
    Rank(Given<'w>, Ranking<'w>),
    /// `rank` with `--join`: write the warriors of a field by points, from the parts of its matches.
    Join(Joined<'w>),
    /// `explain`: write what the kind of this name means, or which kinds there are.
    Explain(Option<&'w str>),
}

impl<'w> Request<'w> {
    /// The settings that it gives, if its command takes any but `serve`, whose hill keeps its own.
    pub fn given(&self) -> Option<Given<'w>>
        ensures { result ≡ given_of self.now }
    {
        match *self {
            Request::Asm(given, _)
            | Request::Check(given, _)
            | Request::Fight(given, _)
            | Request::Many(given, _)
            | Request::Create(given, _)
            | Request::SubmitTo(given, _)
            | Request::Replay(given, _)
            | Request::Trace(given, _)
            | Request::Rank(given, _) => Some(given),
            Request::Submit(_)
            | Request::Show(_)
            | Request::ShowTo(_)
            | Request::Serve(..)
            | Request::Session(_)
            | Request::Audit(_)
            | Request::Migrate(_)
            | Request::Page(_)
            | Request::Try(..)
            | Request::Copy(_)
            | Request::Reseed(_)
            | Request::Join(_)
            | Request::Explain(_) => None,
        }
    }
}

/// The place that a source is read from.
#[derive(Clone, Copy)]
pub enum Source<'w> {
    /// The standard input, named `-`, and what messages call it.
    Input(&'w str),
    /// The file of this name.
    File(&'w str),
}

/// A source, and how its load text is written.
#[derive(Clone, Copy)]
pub struct Assembled<'w> {
    pub source: Source<'w>,
    /// Another body for the `EQU` lines of a name, as `NAME=VALUE`, if one is given.
    pub define: Option<&'w str>,
    /// Whether a comment after each instruction has where it is from.
    pub listing: bool,
}

/// The sources that are checked, and how.
#[derive(Drop)]
pub struct Checked<'w> {
    /// In the order of the command line; one or more.
    pub files: Vec<Source<'w>>,
    /// The form of the report.
    pub form: Form,
    /// Whether the report has warnings.
    pub warnings: bool,
    /// Whether a warning is refused as a fault is.
    pub deny: bool,
    /// Another body for the `EQU` lines of a name in each, as `NAME=VALUE`, if one is given.
    pub define: Option<&'w str>,
}

/// The form of a report.
#[derive(Clone, Copy)]
pub enum Form {
    /// Lines for people.
    Text,
    /// JSON, for programs.
    Json,
}

/// How output is laid out.
#[derive(Clone, Copy)]
pub enum View {
    /// One fact a line.
    Plain,
    /// Columns under a heading, for people.
    Table,
    /// One JSON object a line.
    Json,
}

/// The sources of a warrior and of its opponents.
#[derive(Drop)]
pub struct Fighters<'w> {
    pub older: Source<'w>,
    /// In the order of the command line; one or more.
    pub opponents: Vec<Source<'w>>,
    /// Whether each match is played in the other order too.
    pub both: bool,
    /// Whether each round is written; then there is one opponent.
    pub each: bool,
    /// The layout that is asked for, if one is.
    pub view: Option<View>,
    /// Another body for the `EQU` lines of a name in the older warrior's source, as `NAME=VALUE`, if one is given.
    pub define: Option<&'w str>,
}

/// The opponents of each warrior that comes by standard input.
#[derive(Drop)]
pub struct Candidates<'w> {
    /// In the order of the command line; one or more, and none is the input.
    pub opponents: Vec<Source<'w>>,
}

/// The file of a hill, and what is written of it.
#[derive(Clone, Copy)]
pub struct Shown<'w> {
    pub hill: &'w str,
    /// Whether the table of matches is written too: the rounds that each warrior won against each other one.
    pub matches: bool,
    /// Whether the settings are written in place of the table, as options.
    pub settings: bool,
    /// Whether the seed is among them.
    pub with_seed: bool,
    /// The entry of the warrior whose load text is written in place of the table, if one is named.
    pub entry: Option<u32>,
    /// The layout that is asked for, if one is.
    pub view: Option<View>,
}

/// The file of a hill of the old format, and the file that it moves to.
#[derive(Clone, Copy)]
pub struct Migration<'w> {
    /// Stays as it is.
    pub old: &'w str,
    /// Created if missing.
    pub new: &'w str,
}

/// The sources of two warriors, and which round of their match is shown.
#[derive(Clone, Copy)]
pub struct Watched<'w> {
    pub older: Source<'w>,
    pub younger: Source<'w>,
    pub round: Round,
    /// The file for the page; it is written on the output if none is named.
    pub page: Option<&'w str>,
    /// Another body for the `EQU` lines of a name in the older warrior's source, as `NAME=VALUE`, if one is given.
    pub define: Option<&'w str>,
}

/// The sources of two warriors, and which turns of a round of their match are written.
#[derive(Clone, Copy)]
pub struct Traced<'w> {
    pub older: Source<'w>,
    pub younger: Source<'w>,
    pub round: Round,
    /// How many turns, the last ones of the round; all if it is `None`.
    pub last: Option<u32>,
    pub form: Form,
    /// Another body for the `EQU` lines of a name in the older warrior's source, as `NAME=VALUE`, if one is given.
    pub define: Option<&'w str>,
}

/// A round of a match.
#[derive(Clone, Copy)]
pub enum Round {
    /// That of this number; the first is 1.
    Number(u32),
    /// The first that the older warrior lost.
    Lost,
    /// The first that it won.
    Won,
    /// The first tie.
    Tied,
}

/// The sources of a field, and how its warriors fight each other.
#[derive(Drop)]
pub struct Ranking<'w> {
    /// In the order of the command line; one or more.
    pub field: Vec<Source<'w>>,
    /// Whether each match is played in the other order too.
    pub both: bool,
    /// The layout that is asked for, if one is.
    pub view: Option<View>,
    /// Whether the table of matches is written too: the rounds that each warrior won against each other one.
    pub matches: bool,
    /// The part of the matches that is played, if not all are. Then there is no layout and no table of matches.
    pub part: Option<Part>,
}

/// A part of a work, and how many parts there are.
#[derive(Clone, Copy)]
pub struct Part {
    /// The first is 1.
    pub number: u32,
    /// At least the number.
    pub count: u32,
}

/// The files of the parts of a field's matches.
#[derive(Drop)]
pub struct Joined<'w> {
    /// In the order of the command line; one or more.
    pub parts: Vec<Source<'w>>,
    /// The layout that is asked for, if one is.
    pub view: Option<View>,
}

/// Why a command line gives no request.
#[derive(Drop)]
pub enum NoRequest {
    /// It asks for help or for the version, which is this text.
    Help(String),
    /// It is wrong, as this text says.
    WordFault(String),
    /// Out of memory.
    Memory,
}

//! The names of fields.

ghost use Rattle.std.specs.Prelude.{◌≡◌};
ghost use Rattle.koth_news.specs.Keys.{key_text};

/// The name of a field.
#[derive(Clone, Copy, PartialEq, Eq)]
pub(crate) enum Key {
    Author,
    Bytes,
    Entry,
    Kind,
    Line,
    Lines,
    Name,
    Peer,
    Points,
    Pushed,
    PushedAuthor,
    PushedName,
    Rank,
    Request,
    Status,
    Text,
    Time,
    Type,
    Whole,
}

impl Key {
    /// The name as it is in an object.
    #[tactic(auto, unfolding(crate::specs::Keys::key_text))]
    pub(crate) fn text(self) -> &'static str
        ensures { result.now ≡ key_text self }
    {
        match self {
            Key::Author => "author",
            Key::Bytes => "bytes",
            Key::Entry => "entry",
            Key::Kind => "kind",
            Key::Line => "line",
            Key::Lines => "lines",
            Key::Name => "name",
            Key::Peer => "peer",
            Key::Points => "points",
            Key::Pushed => "pushed",
            Key::PushedAuthor => "pushed_author",
            Key::PushedName => "pushed_name",
            Key::Rank => "rank",
            Key::Request => "request",
            Key::Status => "status",
            Key::Text => "text",
            Key::Time => "time",
            Key::Type => "type",
            Key::Whole => "whole",
        }
    }
}

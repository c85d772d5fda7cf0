//! What a kind means.

ghost use Rattle.std.specs.Prelude.{◌≡◌};

use crate::kind::Kind;
use crate::refusals::refusal;
use crate::warnings::warning;

/// What a refusal or a warning means.
#[derive(Clone, Copy)]
pub struct Meaning {
    pub kind: Kind,
    /// When a source earns it, as the rest of a sentence.
    pub when: &'static str,
    /// None if no source earns it by what it says.
    pub examples: Option<Examples>,
}

/// A source that earns a kind, and one that doesn't: their lines, each after four spaces. In parentheses a line says
/// how many lines there are, or that there is none.
#[derive(Clone, Copy)]
pub struct Examples {
    pub earns: &'static str,
    pub other: &'static str,
}

/// What a kind means.
pub fn meaning_of(kind: Kind) -> Meaning
    ensures { result.kind ≡ kind }
{
    match kind {
        Kind::Refusal(refused) => refusal(refused),
        Kind::Warning(warned) => warning(warned),
    }
}

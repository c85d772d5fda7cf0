//! Names that are known before any source.

ghost use Rattle.std.specs.{Prelude.◌≡◌, Str.bytes_eq};
ghost use Rattle.redcode_names.specs.Name.{is_loose, predefined};

use war_types::Settings;

/// The value of a predefined name on a line with `before` instructions before it. Letter case counts.
pub fn predefined(settings: &Settings, before: u32, name: &[u8]) -> Option<i64>
    ensures { result ≡ predefined settings.now before name.now }
{
    if is_called(name, b"CORESIZE") {
        Some(i64::from(settings.core()))
    } else if is_called(name, b"MAXPROCESSES") {
        Some(i64::from(settings.processes()))
    } else if is_called(name, b"MAXCYCLES") {
        Some(i64::from(settings.cycles()))
    } else if is_called(name, b"MAXLENGTH") {
        Some(i64::from(settings.length()))
    } else if is_called(name, b"MINDISTANCE") {
        Some(i64::from(settings.distance()))
    } else if is_called(name, b"ROUNDS") {
        Some(i64::from(settings.rounds()))
    } else if is_called(name, b"WARRIORS") {
        Some(2)
    } else if is_called(name, b"CURLINE") {
        Some(i64::from(before))
    } else {
        None
    }
}

/// Whether a name is this word. Letter case counts.
fn is_called(name: &[u8], word: &[u8]) -> bool
    ensures { result ≡ bytes_eq name.now word.now }
{
    name == word
}

/// Whether a name is not predefined, or its value changes from line to line.
pub fn is_loose(settings: &Settings, name: &[u8]) -> bool
    ensures { result ≡ is_loose settings.now name.now }
{
    predefined(settings, 0, name).is_none() || is_called(name, b"CURLINE")
}

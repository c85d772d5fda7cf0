//! Names, authors and assertions.

ghost use Rattle.std.specs.Prelude.{◌≡◌, [], length, map};
ghost use Rattle.{war_types.specs.Title.after_blanks, redcode_lines.specs.Views.line_read};
ghost use Rattle.redcode_warnings.specs.Titles.{has_form, inner, is_assert, is_author, is_blank_text, is_changed, is_name, last_text};

use redcode_lines::{LineForm, Reading, Span, blanks_before, line_text};
use war_types::{Title, is_blank, without_blanks_behind};

/// The text of the last `;name`, empty if there is none.
pub(crate) fn last_name<'s>(lines: &[Reading<'_, 's>]) -> &'s [u8]
    ensures { result.now ≡ last_text is_name [] (map line_read lines.now) }
{
    let mut text: &[u8] = b"";
    let mut rest = lines;
    while let [line, behind @ ..] = rest {
        if matches!(line.form, LineForm::Name) {
            text = line.title;
        }
        rest = behind;
    }
    text
}

/// The text of the last `;author`, empty if there is none.
pub(crate) fn last_author<'s>(lines: &[Reading<'_, 's>]) -> &'s [u8]
    ensures { result.now ≡ last_text is_author [] (map line_read lines.now) }
{
    let mut text: &[u8] = b"";
    let mut rest = lines;
    while let [line, behind @ ..] = rest {
        if matches!(line.form, LineForm::Author) {
            text = line.title;
        }
        rest = behind;
    }
    text
}

/// Whether an assertion is among these lines.
pub(crate) fn has_assert(lines: &[Reading<'_, '_>]) -> bool
    ensures { result ≡ has_form is_assert (map line_read lines.now) }
{
    let mut rest = lines;
    while let [line, behind @ ..] = rest {
        if matches!(line.form, LineForm::Assert) {
            return true;
        }
        rest = behind;
    }
    false
}

/// Whether a text is no blank, and its title differs from it.
pub(crate) fn is_changed(text: &[u8]) -> bool
    ensures { result ≡ is_changed text.now }
{
    let title = Title::new(text, "Unnamed");
    let inner = inner(text);
    !inner.is_empty() && title.bytes() != inner
}

/// Whether a text has nothing but blanks.
pub(crate) fn is_blank_text(text: &[u8]) -> bool
    ensures { result ≡ is_blank_text text.now }
{
    inner(text).is_empty()
}

/// The text without the blanks at both ends.
pub(crate) fn inner(text: &[u8]) -> &[u8]
    ensures { result.now ≡ inner text.entry.now }
{
    without_blanks_behind(behind_blanks(text))
}

/// The text without the blanks in front.
fn behind_blanks(text: &[u8]) -> &[u8]
    ensures { result.now ≡ after_blanks text.entry.now }
{
    let mut rest = text;
    while let [first, behind @ ..] = rest {
        if !is_blank(*first) {
            break;
        }
        rest = behind;
    }
    rest
}

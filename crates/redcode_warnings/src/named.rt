//! The names that lines name.

ghost use Rattle.std.specs.{Prelude.{◌≡◌, ◌||◌, List, ℕ, IfOk, OnOk, map}, Str.bytes_eq};
ghost use Rattle.{redcode_text.specs.Tokens.pieces, redcode_lines.specs.{Line.names_among, Views.line_read}};
ghost use Rattle.redcode_warnings.specs.{Named.{is_among, names_of, tokens_by}, Views.has_name};

use redcode_lines::{LineForm, Reading, is_name};
use redcode_text::Token;
use std::alloc::{AllocError, Allocator};
use std::collections::BTreeSet;

/// Names, which borrow their bytes from the source.
pub(crate) type NameSet<'s, A> = BTreeSet<&'s [u8], A>;

/// The names that these lines name: all but their labels.
pub(crate) fn names_of<'s, A: Allocator + Copy>(
    alloc: A,
    lines: &[Reading<'_, 's>],
) -> Result<NameSet<'s, A>, AllocError>
    ensures { IfOk result (λ names. (name : List ℕ) → has_name names name
        ≡ is_among (names_of (map line_read lines.now)) name) }
{
    let mut names = BTreeSet::new(alloc);
    let mut rest = lines;
    while let [line, behind @ ..] = rest {
        add_names(named_tokens(line), &mut names)?;
        rest = behind;
    }
    Ok(names)
}

/// The tokens of a line whose names it names.
fn named_tokens<'l, 's>(line: &Reading<'l, 's>) -> &'l [Token<'s>]
    ensures { pieces result.now ≡ tokens_by line.now.form (line_read line.now) }
{
    match line.form {
        LineForm::Statement => line.behind_labels(),
        LineForm::Assert | LineForm::Name | LineForm::Author => line.tokens,
    }
}

/// Adds the names among these tokens.
fn add_names<'s, A: Allocator + Copy>(
    tokens: &[Token<'s>],
    names: &mut NameSet<'s, A>,
) -> Result<(), AllocError>
    ensures { OnOk result ((name : List ℕ) → has_name names.new name
        ≡ (has_name names.old name || is_among (names_among (pieces tokens.now)) name)) }
{
    let mut rest = tokens;
    while let [token, behind @ ..] = rest {
        if is_name(token) {
            add_name(token.text, names)?;
        }
        rest = behind;
    }
    Ok(())
}

/// Adds a name.
fn add_name<'s, A: Allocator + Copy>(
    name: &'s [u8],
    names: &mut NameSet<'s, A>,
) -> Result<(), AllocError>
    ensures { OnOk result ((other : List ℕ) → has_name names.new other
        ≡ (has_name names.old other || bytes_eq other name.entry.now)) }
{
    names.insert(name)?;
    Ok(())
}

/// Whether a name is among these.
pub(crate) fn has_name<A: Allocator>(names: &NameSet<'_, A>, name: &[u8]) -> bool
    ensures { result ≡ has_name names.now name.now }
{
    names.contains(name)
}

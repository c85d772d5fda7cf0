//! The operands of a line, as they are written.

use redcode_expand::LineKind;
use redcode_lines::{LineForm, Reading, has_text, operands_of};
use redcode_text::{Token, Word, mode_named};

/// What kind of line this is.
pub fn kind_of(line: &Reading<'_, '_>) -> LineKind {
    match (line.form, line.word) {
        (LineForm::Assert, _) => LineKind::Assert,
        (LineForm::Name, _) => LineKind::Name,
        (LineForm::Author, _) => LineKind::Author,
        (_, Some(Word::Operation(_) | Word::Pspace)) => LineKind::Operation,
        (_, Some(Word::Org)) => LineKind::Org,
        (_, Some(Word::End)) => LineKind::End,
        (_, _) => LineKind::Other,
    }
}

/// The tokens of a line that are operands, or an expression.
pub fn operands_in<'l, 's>(line: &Reading<'l, 's>) -> &'l [Token<'s>] {
    operands_of(kind_of(line), line.tokens)
}

/// Tokens with a comma among them.
#[derive(Clone, Copy)]
pub struct Parted<'l, 's> {
    pub before: &'l [Token<'s>],
    pub comma: &'l Token<'s>,
    pub behind: &'l [Token<'s>],
}

/// These tokens, parted at the first comma.
pub fn at_comma<'l, 's>(tokens: &'l [Token<'s>]) -> Option<Parted<'l, 's>> {
    for (i, token) in tokens.iter().enumerate() {
        if has_text(token, b",") {
            return Some(Parted {
                before: &tokens[..i],
                comma: token,
                behind: &tokens[i + 1..],
            });
        }
    }
    None
}

/// The second operand or the first one, as far as the line has it written.
pub fn operand_at<'l, 's>(operands: &'l [Token<'s>], is_second: bool) -> &'l [Token<'s>] {
    let Some(found) = at_comma(operands) else {
        return operands;
    };
    if !is_second {
        return found.before;
    }
    let Some(next) = at_comma(found.behind) else {
        return found.behind;
    };
    next.before
}

/// An operand without its mode.
pub fn without_mode<'l, 's>(operand: &'l [Token<'s>]) -> &'l [Token<'s>] {
    match operand {
        [first, behind @ ..] if mode_named(first.text).is_some() => behind,
        _ => operand,
    }
}

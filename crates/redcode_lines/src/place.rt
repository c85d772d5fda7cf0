//! Places in a line.

ghost use Rattle.redcode_lines.specs.Place.{IsPlaceIn};

use redcode_text::{Token, is_blank};

/// A part of a line: how many bytes stand before it, and how many it has.
#[derive(Clone, Copy, PartialEq, Eq)]
pub struct Span {
    pub from: u32,
    pub width: u32,
}

impl Span {
    /// From the beginning of one part to the end of another.
    pub fn to(self, last: Span) -> Span {
        let end = last.from.saturating_add(last.width);
        Span {
            from: self.from,
            width: end.saturating_sub(self.from),
        }
    }
}

/// A token of a text that begins `shift` bytes into its line.
pub fn span_of(shift: u32, token: &Token<'_>) -> Span {
    Span {
        from: shift.saturating_add(token.at),
        width: u32::try_from(token.text.len()).unwrap_or(u32::MAX),
    }
}

/// From the first of the tokens to the last one.
pub fn spans_of(shift: u32, tokens: &[Token<'_>]) -> Option<Span> {
    let (first, last) = (tokens.first()?, tokens.last()?);
    Some(span_of(shift, first).to(span_of(shift, last)))
}

/// A line without the blanks in front.
pub fn whole(text: &[u8]) -> Span {
    Span {
        from: blanks_before(text),
        width: u32::MAX,
    }
}

/// How many blanks stand at the front.
pub fn blanks_before(text: &[u8]) -> u32 {
    // For messages; no assembly comes here.
    let blanks = text.iter().take_while(|byte| is_blank(**byte)).count();
    u32::try_from(blanks).unwrap_or(u32::MAX)
}

/// A part of a text: what lies beyond it is cut off.
pub fn part_of(text: &[u8], span: Span) -> &[u8] {
    let from = text.len().min(span.from as usize);
    let behind = &text[from..];
    &behind[..behind.len().min(span.width as usize)]
}

/// The column of a part, counted from 1, and how many bytes of the text belong to it: what lies beyond the text is cut off.
pub fn place_in(text: &[u8], span: Span) -> (u32, u32)
    ensures { IsPlaceIn text.now result.0 result.1 }
{
    let length = u32::try_from(text.len()).unwrap_or(u32::MAX);
    if length == 0 {
        return (1, 0);
    }
    let from = span.from.min(length - 1);
    let width = span.width.clamp(1, length - from);
    (from + 1, width)
}

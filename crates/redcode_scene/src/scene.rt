//! What is known of a source that is refused.

ghost use Rattle.std.specs.Prelude.{IfOk};
ghost use Rattle.redcode_scene.specs.Faults.{KnowsOf};

use bumpalo::Bump;
use redcode_expand::{Expanded, SOURCE_LIMIT, expand};
use redcode_lines::{
    LineForm, Reading, SourceLine, Span, blanks_before, line_text, live_source, source_lines,
    span_of, spans_of, whole,
};
use redcode_text::Token;
use std::alloc::{AllocError, Allocator};
use war_types::{AsmKind, Settings};

/// Bytes of the word `;assert`.
const ASSERT_BYTES: u32 = 7;

/// What is known of a source that is refused.
#[derive(Drop)]
pub struct Scene<'s, A: Allocator + Copy> {
    pub alloc: A,
    pub source: &'s [u8],
    pub settings: &'s Settings,
    /// Its lines as they stand, none if it is too long.
    pub lines: Vec<SourceLine<'s, A>, A>,
    /// Its lines written out, if that was not refused.
    pub expanded: Option<Expanded<'s, A>>,
}

impl<'s, A: Allocator + Copy> Scene<'s, A> {
    ghost use Rattle.std.specs.Prelude.{◌≡◌, IfOk};
    ghost use Rattle.redcode_scene.specs.Faults.{KnowsOf};

    /// What is known of a source. It fails when memory runs out.
    pub fn new(
        alloc: A,
        region: &'s Bump<A>,
        source: &'s [u8],
        settings: &'s Settings,
    ) -> Result<Scene<'s, A>, AllocError>
        ensures settings { IfOk result (λ scene. scene.settings.now ≡ settings.entry.now) }
        ensures knows { IfOk result (λ scene. KnowsOf settings.entry.now source.entry.now scene.expanded) }
    {
        let lines = lines_of(alloc, source)?;
        match expanded_of(alloc, region, source, settings) {
            Ok(expanded) => Ok(Scene {
                alloc,
                source,
                settings,
                lines,
                expanded,
            }),
            Err(error) => Err(error),
        }
    }

    /// What is known of a source with its lines written out, or `None` if that was refused. It fails when memory runs out.
    pub fn of(
        alloc: A,
        source: &'s [u8],
        settings: &'s Settings,
        expanded: Option<Expanded<'s, A>>,
    ) -> Result<Scene<'s, A>, AllocError> {
        match lines_of(alloc, source) {
            Ok(lines) => Ok(Scene {
                alloc,
                source,
                settings,
                lines,
                expanded,
            }),
            Err(error) => Err(error),
        }
    }

    /// How the line of this number stands in the source, if it says something.
    pub fn row(&self, number: u32) -> Option<Row<'_, 's>> {
        for line in &self.lines {
            if line.number() == number {
                let reading = line.reading();
                let shift = shift_of(line_text(self.source, number), reading.form);
                return Some(Row { reading, shift });
            }
        }
        None
    }

    /// The whole of a line.
    pub fn whole(&self, number: u32) -> Span {
        match self.row(number) {
            Some(row) => row.whole(),
            None => whole(line_text(self.source, number)),
        }
    }
}

/// A line as it stands in the source.
#[derive(Clone, Copy)]
pub struct Row<'l, 's> {
    pub reading: Reading<'l, 's>,
    /// Bytes of the line before the text that its tokens come from.
    pub shift: u32,
}

impl<'l, 's> Row<'l, 's> {
    /// The place of one of its tokens.
    pub fn span(&self, token: &Token<'_>) -> Span {
        span_of(self.shift, token)
    }

    /// From the first of some of its tokens to the last; the whole statement if there are none.
    pub fn spans(&self, tokens: &[Token<'_>]) -> Span {
        match spans_of(self.shift, tokens) {
            Some(span) => span,
            None => self.whole(),
        }
    }

    /// The place of its word, or of the whole line if it has none.
    pub fn word(&self) -> Span {
        match (self.reading.word, self.reading.tokens) {
            (Some(_), [word, ..]) => self.span(word),
            _ => self.whole(),
        }
    }

    /// From its first token to its last; all of the line if it has none.
    pub fn whole(&self) -> Span {
        let front = spans_of(self.shift, self.reading.front);
        let others = spans_of(self.shift, self.reading.tokens);
        match (front, others) {
            (Some(front), Some(others)) => front.to(others),
            (Some(span), None) | (None, Some(span)) => span,
            (None, None) => Span {
                from: 0,
                width: u32::MAX,
            },
        }
    }
}

/// The lines of a source that say something, none if it is too long.
fn lines_of<'s, A: Allocator + Copy>(
    alloc: A,
    source: &'s [u8],
) -> Result<Vec<SourceLine<'s, A>, A>, AllocError> {
    if source.len() > SOURCE_LIMIT {
        return Ok(Vec::new(alloc));
    }
    let (number, live) = live_source(source);
    source_lines(alloc, number, live)
}

/// The source written out, if that is not refused.
fn expanded_of<'s, A: Allocator + Copy>(
    alloc: A,
    region: &'s Bump<A>,
    source: &'s [u8],
    settings: &Settings,
) -> Result<Option<Expanded<'s, A>>, AllocError>
    ensures { IfOk result (λ expanded. KnowsOf settings.now source.entry.now expanded) }
{
    match expand(alloc, region, source, settings) {
        Ok(expanded) => Ok(Some(expanded)),
        Err(fault) => match fault.kind {
            AsmKind::Memory => Err(AllocError),
            _ => Ok(None),
        },
    }
}

/// How many bytes of a line stand before the text that its tokens come from: the bytes up to the end of the word `;assert`, if it has one.
fn shift_of(text: &[u8], form: LineForm) -> u32 {
    match form {
        LineForm::Assert => blanks_before(text).saturating_add(ASSERT_BYTES),
        LineForm::Statement | LineForm::Name | LineForm::Author => 0,
    }
}

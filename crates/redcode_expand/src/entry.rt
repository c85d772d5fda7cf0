//! Lines of an expanded source.

ghost use Rattle.std.specs.Prelude.{◌≡◌, ◌++◌, [], if◌then◌else◌, IfOk};
ghost use Rattle.{redcode_text.specs.Tokens.{piece_of, pieces}, redcode_lines.specs.Line.is_bad, redcode_expand.specs.Cut.{first_bad, is_limited, kept_tokens}};

use redcode_lines::{Line, LineKind};
use redcode_text::{Token, TokenKind, Word};
use std::alloc::{AllocError, Allocator};
use std::marker::Model;

/// A word, a dot, a modifier's name, and one operand more than a line may have.
pub(crate) const MOST_TOKENS: usize = 516;

/// A line of an expanded source, with its texts.
#[derive(Drop)]
pub struct Entry<'s, A: Allocator> {
    /// Its number in the source, its kind, and the instructions before it.
    pub line: Line,
    /// The word of the line, if it has one.
    pub word: Option<Word>,
    /// The text after the word of a `;name` or an `;author` line; empty for other lines.
    pub title: &'s [u8],
    /// The tokens of an operation, `ORG` or `END` from that word on. Of an assertion those after its word, of `;name` and `;author`
    /// none, of any other line the first 516 after its labels, and of those after these the first that is none of the language's. In
    /// operands and expressions the names of `EQU` lines are replaced. A comment at the end is left out.
    pub tokens: Vec<Token<'s>, A>,
}

impl<'s, A: Allocator> Model for Entry<'s, A> {
    ghost use Rattle.{redcode_text.specs.Tokens.pieces, redcode_expand.specs.Walk.ExpandedLine};

    ghost Value = { ExpandedLine };

    ghost view = { λ e. record { source_line = e.line.source_line; kind = e.line.kind; word = e.word; before = e.line.before; title = e.title.now; tokens = pieces e.tokens.items } };
}

/// The tokens that are kept of a line of this kind: no more than show what is wrong with it.
pub(crate) fn cut<'s, A: Allocator>(
    alloc: A,
    kind: LineKind,
    tokens: &[Token<'s>],
) -> Result<Vec<Token<'s>, A>, AllocError>
    ensures { IfOk result (λ kept. pieces kept.items ≡ kept_tokens kind (pieces tokens.now)) }
{
    if tokens.len() <= MOST_TOKENS {
        let all = Vec::from_slice(alloc, tokens)?;
        return Ok(all);
    }
    let (front, behind) = tokens.split_at(MOST_TOKENS);
    let kept = joined(alloc, front, told(kind, behind))?;
    Ok(kept)
}

/// What is kept of the tokens of a line after the first 516.
fn told<'t, 's>(kind: LineKind, tokens: &'t [Token<'s>]) -> &'t [Token<'s>]
    ensures { pieces result.now ≡ (if is_limited kind then [] else first_bad (pieces tokens.entry.now)) }
{
    match kind {
        LineKind::Operation | LineKind::Org | LineKind::End | LineKind::Assert => &[],
        _ => first_bad(tokens),
    }
}

/// The first token that is none of the language's, alone; none if all are. The visit to the line took a step for each of them.
fn first_bad<'t, 's>(tokens: &'t [Token<'s>]) -> &'t [Token<'s>]
    ensures { pieces result.now ≡ first_bad (pieces tokens.entry.now) }
{
    let mut rest = tokens;
    while let [first, behind @ ..] = rest {
        if is_bad(first) {
            return &rest[..1];
        }
        rest = behind;
    }
    &[]
}

/// Whether a token is none of the language's.
fn is_bad(token: &Token<'_>) -> bool
    ensures { result ≡ is_bad (piece_of token.now) }
{
    matches!(token.kind, TokenKind::Bad)
}

/// The tokens `before`, and then `behind`.
pub(crate) fn joined<'s, A: Allocator>(
    alloc: A,
    before: &[Token<'s>],
    behind: &[Token<'s>],
) -> Result<Vec<Token<'s>, A>, AllocError>
    ensures { IfOk result (λ all. all.items ≡ before.now ++ behind.now) }
{
    let mut all = Vec::with_capacity(alloc, before.len().saturating_add(behind.len()))?;
    all.extend_from_slice(before)?;
    all.extend_from_slice(behind)?;
    Ok(all)
}

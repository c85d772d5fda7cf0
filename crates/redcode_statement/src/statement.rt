//! What the tokens of a line say.

ghost use Rattle.std.specs.{Prelude.◌≡◌, List.list_any};
ghost use Rattle.{redcode_text.specs.Tokens.pieces, redcode_statement.specs.Statement.{is_bad, is_bad_kind, single_value, org_said, end_said, assert_said, other_said}};

use crate::operand::at_comma;
use redcode_text::{Names, Token, TokenKind, Word, value};
use war_types::{AsmKind, Instr};

/// What a line says that has no fault.
#[derive(Clone, Copy)]
pub enum Statement {
    /// An instruction.
    Instruction(Instr),
    /// `ORG`, with the start.
    Org(i64),
    /// `END` with a start.
    End(i64),
    /// An assertion with its value.
    Assert(i64),
    /// Nothing: a title, an `END` alone, or an assertion without a token.
    Nothing,
}

/// Whether one of the tokens is none of the language's.
pub fn has_bad_token(tokens: &[Token<'_>]) -> bool
    ensures { result ≡ list_any is_bad (pieces tokens.now) }
{
    for token in tokens {
        // Takes no step: each line that is written out is judged once, and has 4 tokens and 513 others at most.
        if matches!(token.kind, TokenKind::Bad) {
            return true;
        }
    }
    false
}

/// What `ORG` says with the tokens after it.
pub fn org_said<N: Names>(tokens: &[Token<'_>], names: &N) -> Result<Statement, AsmKind>
    ensures { result ≡ org_said (N.values names.now) (pieces tokens.now) }
{
    let start = single_value(tokens, names)?;
    Ok(Statement::Org(start))
}

/// What `END` says with the tokens after it.
pub fn end_said<N: Names>(tokens: &[Token<'_>], names: &N) -> Result<Statement, AsmKind>
    ensures { result ≡ end_said (N.values names.now) (pieces tokens.now) }
{
    if tokens.is_empty() {
        return Ok(Statement::Nothing);
    }
    let start = single_value(tokens, names)?;
    Ok(Statement::End(start))
}

/// What an assertion says with these tokens.
pub fn assert_said<N: Names>(tokens: &[Token<'_>], names: &N) -> Result<Statement, AsmKind>
    ensures { result ≡ assert_said (N.values names.now) (pieces tokens.now) }
{
    if tokens.is_empty() {
        return Ok(Statement::Nothing);
    }
    let value = single_value(tokens, names)?;
    Ok(Statement::Assert(value))
}

/// The fault of a line with this word that is none of the language.
pub fn other_said(word: Option<Word>) -> Result<Statement, AsmKind>
    ensures { result ≡ other_said word }
{
    match word {
        Some(Word::Pin) => Err(AsmKind::Pspace),
        _ => Err(AsmKind::BadOperation),
    }
}

/// The value of the expression of `ORG`, `END` or an assertion, which a comma ends: the expression's fault comes before
/// that of the comma.
fn single_value<N: Names>(tokens: &[Token<'_>], names: &N) -> Result<i64, AsmKind>
    ensures { result ≡ single_value (N.values names.now) (pieces tokens.now) }
{
    let (expression, behind) = at_comma(tokens);
    if expression.is_empty() {
        return Err(AsmKind::MissingOperand);
    }
    let value = value(expression, names).map_err(AsmKind::Expression)?;
    match behind {
        None => Ok(value),
        Some(_) => Err(AsmKind::ExtraText),
    }
}

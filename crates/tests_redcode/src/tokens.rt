//! Lines, their tokens, and the values of expressions.

use crate::expecting::expect_same;
use crate::sources::source_of;
use redcode_text::{Names, Token, TokenKind, scan, value};
use std::alloc::Allocator;
use std::process::Abort;
use war_types::ExprFault;

/// The tokens of a line. A function without clauses, so that the proof of a test carries none of `scan` along.
pub(crate) fn tokens_of<'l, A: Allocator + Copy>(
    rt: &impl Abort,
    alloc: A,
    line: &'l [u8],
) -> Vec<Token<'l>, A> {
    assert!(rt; line.len() <= 65536);
    scan(alloc, line).expect(rt, "there is memory")
}

pub(crate) type Row = (TokenKind, &'static [u8], u32);

/// Whether the tokens are these.
pub(crate) fn gives(tokens: &[Token<'_>], rows: &[Row]) -> bool {
    tokens.len() == rows.len()
        && tokens.iter().zip(rows).all(|(token, row)| token.kind == row.0
            && token.text == row.1
            && token.at == row.2)
}

/// The tokens of `MOV.I #-1,>x2 ;c`.
pub(crate) const MOVED: [Row; 10] = [
    (TokenKind::Name, b"MOV", 0),
    (TokenKind::Symbol, b".", 3),
    (TokenKind::Name, b"I", 4),
    (TokenKind::Symbol, b"#", 6),
    (TokenKind::Symbol, b"-", 7),
    (TokenKind::Number, b"1", 8),
    (TokenKind::Symbol, b",", 9),
    (TokenKind::Symbol, b">", 10),
    (TokenKind::Name, b"x2", 11),
    (TokenKind::Comment, b";c", 14),
];

/// A line has these tokens.
fn check_tokens(rt: &(impl Abort + AllocGlobal), line: &[u8], rows: &[Row]) {
    let tokens = tokens_of(rt, rt.alloc(), line);
    let gives = gives(tokens.as_slice(), rows);
    drop(tokens);
    assert!(rt; gives, "{line:?}");
}

/// The tokens of `\t<==&&&|||=1_a\n`.
const LONGEST: [Row; 10] = [
    (TokenKind::Symbol, b"<=", 1),
    (TokenKind::Bad, b"=", 3),
    (TokenKind::Symbol, b"&&", 4),
    (TokenKind::Symbol, b"&", 6),
    (TokenKind::Symbol, b"||", 7),
    (TokenKind::Bad, b"|", 9),
    (TokenKind::Bad, b"=", 10),
    (TokenKind::Number, b"1", 11),
    (TokenKind::Name, b"_a", 12),
    (TokenKind::Bad, b"\n", 14),
];

/// Lines and their tokens: among them the longest symbols and bad bytes, and lines without tokens.
const TOKENS: [(&[u8], &[Row]); 4] = [
    (b"MOV.I #-1,>x2 ;c", &MOVED),
    (b"\t<==&&&|||=1_a\n", &LONGEST),
    (b"", &[]),
    (b" \t\r ", &[]),
];

#[test]
fn tokens_and_their_places(rt: HostRuntime) {
    for (line, rows) in &TOKENS {
        check_tokens(&rt, line, rows);
    }
}

/// Each name has one value, or none has any.
#[derive(Clone, Copy)]
pub(crate) struct Same {
    pub(crate) value: Option<i64>,
}

impl Names for Same {
    ghost values = { λ it _. it.value };

    fn value_of(&self, _name: &[u8]) -> Option<i64> {
        self.value
    }
}

/// The value of an expression if each name has the value that is known, if one is.
fn check_value(
    rt: &(impl Abort + AllocGlobal),
    line: &[u8],
    known: Option<i64>,
    wanted: Result<i64, ExprFault>,
) {
    let tokens = tokens_of(rt, rt.alloc(), line);
    let found = value(tokens.as_slice(), &Same { value: known });
    drop(tokens);
    expect_same(rt, &found, &wanted, "a value");
}

/// Expressions without a name that is known, and the value of each.
const VALUES: [(&[u8], Result<i64, ExprFault>); 18] = [
    (b"1+2*3==7 && !0", Ok(1)),
    (b"10-4-3", Ok(3)),
    (b"-7/2", Ok(-3)),
    (b"-7%2", Ok(-1)),
    (b"1+", Err(ExprFault::BadExpression)),
    (b"(1/0)+foo", Err(ExprFault::DivideByZero)),
    (b"foo+1/0", Err(ExprFault::UnknownName)),
    (b"9223372036854775807+1", Err(ExprFault::Overflow)),
    (b"-9223372036854775808", Err(ExprFault::Overflow)),
    (b"(-9223372036854775807-1)%-1", Ok(0)),
    (b"1||1/0", Err(ExprFault::DivideByZero)),
    (b"10-2*3-1", Ok(3)),
    (b"", Err(ExprFault::BadExpression)),
    (b"(1)(2)", Err(ExprFault::BadExpression)),
    (b"1/0+foo)", Err(ExprFault::BadExpression)),
    (b"(-9223372036854775807-1)/-1", Err(ExprFault::Overflow)),
    (b"-(-9223372036854775807-1)", Err(ExprFault::Overflow)),
    (b"0&&1/0", Err(ExprFault::DivideByZero)),
];

#[test]
fn values_and_faults(rt: HostRuntime) {
    for (line, wanted) in &VALUES {
        check_value(&rt, line, None, *wanted);
    }
    check_value(&rt, b"x*x-1", Some(7), Ok(48));
}

/// A number within `depth` parentheses has this value.
fn check_nested(rt: &(impl Abort + AllocGlobal), depth: usize, wanted: Result<i64, ExprFault>) {
    let opened = source_of(rt, "", "(", depth, "7");
    let line = source_of(rt, opened.as_str(), ")", depth, "");
    check_value(rt, line.as_bytes(), None, wanted);
    drop(line);
    drop(opened);
}

#[test]
fn parentheses_up_to_64_deep(rt: HostRuntime) {
    check_nested(&rt, 64, Ok(7));
    check_nested(&rt, 65, Err(ExprFault::BadExpression));
}

//! The reply to a submission, as its line has it.

ghost use Rattle.std.specs.Prelude.{◌≡◌, IfSome};
ghost use Rattle.{war_types.specs.Fault.kind_name, koth_client.specs.Coming.IsReply};

use hill_store::Reply;
use koth_session::line_of;
use std::str::SplitAsciiWhitespace;
use war_types::{AsmFault, AsmKind, ExprFault};

/// The reply whose line is at the front of what came, if there is one.
pub(crate) fn reply_at(came: &[u8]) -> Option<Reply>
    ensures { IfSome result (IsReply came.now) }
{
    match reply_read(came) {
        Some(reply) if came.starts_with(line_of(&reply).as_slice()) => Some(reply),
        _ => None,
    }
}

/// What the words of the first line write as a reply, whatever is between them.
fn reply_read(came: &[u8]) -> Option<Reply> {
    let end = came.iter().position(|byte| *byte == b'\n')?;
    let line = str::from_utf8(&came[..end]).ok()?;
    let mut words = line.split_ascii_whitespace();
    match words.next()? {
        "PLACED" => placed_read(&mut words),
        "FELL" => fell_read(&mut words),
        "REFUSED" => refused_read(&mut words),
        "MEMORY" => Some(Reply::Memory),
        "WORN" => Some(Reply::Worn),
        _ => None,
    }
}

fn placed_read(words: &mut SplitAsciiWhitespace<'_>) -> Option<Reply> {
    Some(Reply::Placed {
        entry: words.next()?.parse().ok()?,
        rank: words.next()?.parse().ok()?,
        score: words.next()?.parse().ok()?,
    })
}

fn fell_read(words: &mut SplitAsciiWhitespace<'_>) -> Option<Reply> {
    Some(Reply::Fell {
        entry: words.next()?.parse().ok()?,
        score: words.next()?.parse().ok()?,
    })
}

fn refused_read(words: &mut SplitAsciiWhitespace<'_>) -> Option<Reply> {
    Some(Reply::Refused(AsmFault {
        line: words.next()?.parse().ok()?,
        kind: kind_named(words.next()?)?,
    }))
}

/// The kind of this name. Those of an expression are one for the count of a `FOR` too.
fn kind_named(name: &str) -> Option<AsmKind> {
    match name {
        "SourceTooLong" => Some(AsmKind::SourceTooLong),
        "UnmatchedFor" => Some(AsmKind::UnmatchedFor),
        "UnmatchedRof" => Some(AsmKind::UnmatchedRof),
        "ForLimit" => Some(AsmKind::ForLimit),
        "DuplicateName" => Some(AsmKind::DuplicateName),
        "BadEqu" => Some(AsmKind::BadEqu),
        "EquLimit" => Some(AsmKind::EquLimit),
        "Memory" => Some(AsmKind::Memory),
        "BadToken" => Some(AsmKind::BadToken),
        "BadOperation" => Some(AsmKind::BadOperation),
        "Pspace" => Some(AsmKind::Pspace),
        "BadModifier" => Some(AsmKind::BadModifier),
        "MissingOperand" => Some(AsmKind::MissingOperand),
        "ExtraText" => Some(AsmKind::ExtraText),
        "Empty" => Some(AsmKind::Empty),
        "TooLong" => Some(AsmKind::TooLong),
        "BadStart" => Some(AsmKind::BadStart),
        "AssertFalse" => Some(AsmKind::AssertFalse),
        _ => expression_kind(name),
    }
}

fn expression_kind(name: &str) -> Option<AsmKind> {
    match name {
        "BadExpression" => Some(AsmKind::Expression(ExprFault::BadExpression)),
        "UnknownName" => Some(AsmKind::Expression(ExprFault::UnknownName)),
        "DivideByZero" => Some(AsmKind::Expression(ExprFault::DivideByZero)),
        "Overflow" => Some(AsmKind::Expression(ExprFault::Overflow)),
        _ => None,
    }
}

//! The lines of a service's log.

ghost use Rattle.std.specs.Prelude.{◌≡◌, ◌++◌, option_map, OnOk};
ghost use Rattle.koth_news.specs.Logged.{asked_line, dropped_line, fault_line, happened_line, judged_fields, judged_word, noted_line, outcome_line, pushed_fields, title_fields, when_fields};
ghost use Rattle.koth_news.specs.{Logged.{asking_parts, when_parts, whom_parts}, Objects.further_text};

use crate::key::Key;
use crate::object::Value::{Number, Text, Truth};
use crate::object::{begin, put_fields, put_object};
use std::alloc::{AllocError, Allocator};
use war_types::AsmFault;

/// When something happened, and with which peer or browser.
#[derive(Clone, Copy)]
pub struct When<'w> {
    /// The time, as `2026-11-26T15:20:01Z`.
    pub time: &'w [u8],
    /// The address and the port.
    pub peer: &'w [u8],
}

/// A warrior, by its entry, and whose it is.
#[derive(Clone, Copy)]
pub struct Whom<'w> {
    pub entry: u64,
    pub name: &'w [u8],
    pub author: &'w [u8],
}

/// A browser's request, and what it is answered.
#[derive(Clone, Copy)]
pub struct Asking<'a> {
    /// The first line of the request, or its beginning.
    pub request: &'a [u8],
    /// Whether that is all of the first line.
    pub whole: bool,
    pub status: u64,
    /// How many bytes the answer has.
    pub bytes: u64,
}

/// What a submission that was judged is answered.
#[derive(Clone, Copy, PartialEq, Eq)]
pub enum Judged {
    Placed { entry: u64, rank: u32, points: u32 },
    Fell { entry: u64, points: u32 },
}

/// Puts the line of what happened with a peer or a browser, and how or why in words. The error is lack of memory, as it
/// is below.
pub fn put_happened<'w, A: Allocator>(
    line: &mut Vec<u8, A>,
    when: When<'w>,
    event: &str,
    words: &'w [u8],
) -> Result<(), AllocError>
    ensures { OnOk result (line.new.items
        ≡ line.old.items ++ happened_line (when_parts when.entry) event.now words.now) }
{
    let fields = [
        (Key::Time, Text(when.time)),
        (Key::Peer, Text(when.peer)),
        (Key::Text, Text(words)),
    ];
    put_object(line, event, &fields)
}

/// Puts the line of what happened with the service itself, and what it is about in words.
pub fn put_noted<'w, A: Allocator>(
    line: &mut Vec<u8, A>,
    time: &'w [u8],
    event: &str,
    words: &'w [u8],
) -> Result<(), AllocError>
    ensures { OnOk result (line.new.items ≡ line.old.items ++ noted_line time.now event.now words.now) }
{
    put_object(
        line,
        event,
        &[(Key::Time, Text(time)), (Key::Text, Text(words))],
    )
}

/// Puts the line of how many lines were dropped.
pub fn put_dropped<A: Allocator>(
    line: &mut Vec<u8, A>,
    time: &[u8],
    lines: u64,
) -> Result<(), AllocError>
    ensures { OnOk result (line.new.items ≡ line.old.items ++ dropped_line time.now lines) }
{
    put_object(
        line,
        "dropped",
        &[(Key::Time, Text(time)), (Key::Lines, Number(lines))],
    )
}

/// Puts the line of a browser's request.
pub fn put_asked<'w, A: Allocator>(
    line: &mut Vec<u8, A>,
    when: When<'w>,
    asking: Asking<'w>,
) -> Result<(), AllocError>
    ensures { OnOk result (line.new.items
        ≡ line.old.items ++ asked_line (when_parts when.entry) (asking_parts asking.entry)) }
{
    let fields = [
        (Key::Time, Text(when.time)),
        (Key::Peer, Text(when.peer)),
        (Key::Request, Text(asking.request)),
        (Key::Whole, Truth(asking.whole)),
        (Key::Status, Number(asking.status)),
        (Key::Bytes, Number(asking.bytes)),
    ];
    put_object(line, "asked", &fields)
}

/// Puts the line of a source that is refused.
pub fn put_fault<A: Allocator>(
    line: &mut Vec<u8, A>,
    when: When<'_>,
    fault: AsmFault,
) -> Result<(), AllocError>
    ensures { OnOk result (line.new.items ≡ line.old.items ++ fault_line (when_parts when.entry) fault) }
{
    let fields = [
        (Key::Time, Text(when.time)),
        (Key::Peer, Text(when.peer)),
        (Key::Line, Number(u64::from(fault.line))),
        (Key::Kind, Text(fault.kind.name().as_bytes())),
    ];
    put_object(line, "refused", &fields)
}

/// Puts the line of a submission that was judged, whose it is if that is known, and who was pushed off for it.
pub fn put_outcome<A: Allocator>(
    line: &mut Vec<u8, A>,
    when: When<'_>,
    judged: Judged,
    whom: Option<Whom<'_>>,
    pushed: Option<Whom<'_>>,
) -> Result<(), AllocError>
    ensures { OnOk result (line.new.items ≡ line.old.items ++ outcome_line (when_parts when.entry) judged
        (option_map whom_parts whom.entry) (option_map whom_parts pushed.entry)) }
{
    begin(line, word_of(judged))?;
    put_when(line, when)?;
    put_judged(line, judged)?;
    put_title(line, whom)?;
    put_pushed(line, pushed)?;
    line.extend_from_slice(b"}\n")
}

fn put_when<A: Allocator>(line: &mut Vec<u8, A>, when: When<'_>) -> Result<(), AllocError>
    ensures { OnOk result (line.new.items ≡ line.old.items ++ further_text (when_fields (when_parts when.entry))) }
{
    put_fields(
        line,
        &[(Key::Time, Text(when.time)), (Key::Peer, Text(when.peer))],
    )
}

/// What a line of it is called.
fn word_of(judged: Judged) -> &'static str
    ensures { result.now ≡ judged_word judged }
{
    match judged {
        Judged::Placed { .. } => "placed",
        Judged::Fell { .. } => "fell",
    }
}

fn put_judged<A: Allocator>(line: &mut Vec<u8, A>, judged: Judged) -> Result<(), AllocError>
    ensures { OnOk result (line.new.items ≡ line.old.items ++ further_text (judged_fields judged)) }
{
    match judged {
        Judged::Placed {
            entry,
            rank,
            points,
        } => put_fields(
            line,
            &[
                (Key::Entry, Number(entry)),
                (Key::Rank, Number(u64::from(rank))),
                (Key::Points, Number(u64::from(points))),
            ],
        ),
        Judged::Fell { entry, points } => put_fields(
            line,
            &[
                (Key::Entry, Number(entry)),
                (Key::Points, Number(u64::from(points))),
            ],
        ),
    }
}

fn put_title<A: Allocator>(line: &mut Vec<u8, A>, whom: Option<Whom<'_>>) -> Result<(), AllocError>
    ensures { OnOk result (line.new.items
        ≡ line.old.items ++ further_text (title_fields (option_map whom_parts whom.entry))) }
{
    match whom {
        Some(whom) => put_fields(
            line,
            &[
                (Key::Name, Text(whom.name)),
                (Key::Author, Text(whom.author)),
            ],
        ),
        None => Ok(()),
    }
}

fn put_pushed<A: Allocator>(
    line: &mut Vec<u8, A>,
    pushed: Option<Whom<'_>>,
) -> Result<(), AllocError>
    ensures { OnOk result (line.new.items
        ≡ line.old.items ++ further_text (pushed_fields (option_map whom_parts pushed.entry))) }
{
    match pushed {
        Some(pushed) => put_fields(
            line,
            &[
                (Key::Pushed, Number(pushed.entry)),
                (Key::PushedName, Text(pushed.name)),
                (Key::PushedAuthor, Text(pushed.author)),
            ],
        ),
        None => Ok(()),
    }
}

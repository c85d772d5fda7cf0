//! The command `show`: the table of the hill in a file, and the matrix of its matches.

ghost use Rattle.std.specs.Prelude.{◌≡◌, IfOk, true};
ghost use Rattle.{koth_keeping.specs.Answers.Answers, koth_hills.specs.Hills.{SaysShown, SaysSight, shown_lines, shown_matrix, shown_table, shown_text, sight_of, sight_text}};

use crate::entry::answer_entry;
use crate::settings::settings_text;
use crate::width::{TERMINAL_WIDTH, longest_line};
use hill_store::Store;
use koth_commands::Answer;
use koth_commands::trouble::Trouble;
use koth_files::look_hill;
use koth_hill::Hill;
use koth_json::hill_text;
use koth_protocol::matches_text;
use koth_session::table_of;
use koth_views::{hill_view, matches_view};
use koth_words::{Shown, View, given_as};
use sector_disk::Device;
use std::alloc::{AllocError, Allocator};
use std::rt::Files;

/// Answers with the table of the hill in a file, as a session answers `SHOW`, in columns for people, or as lines of
/// JSON. If that is asked for, the matrix of its matches follows: who won how many rounds against whom. Or it answers
/// with the hill's settings as options in place of these, or with the load text of the warrior with an entry. The file
/// is only read, and its lock is not taken: so `show`
/// can show a hill while a service works on it.
pub fn perform_show<'s, R: Files, A: Allocator + Copy>(
    rt: &R,
    alloc: A,
    shown: Shown<'s>,
    view: View,
) -> Result<Answer<A>, Trouble<'s>>
    ensures { Answers (SaysShown view (sight_of shown.entry)) result }
{
    match look_hill(rt, alloc, shown.hill) {
        Ok(store) => match shown.entry {
            Some(entry) => answer_entry(alloc, store.hill(), shown.hill, entry),
            None => answer_sight(alloc, &store, shown, view),
        },
        Err(trouble) => Err(trouble),
    }
}

/// Answers with what is to be seen of a store's hill.
fn answer_sight<'s, D: Device, A: Allocator + Copy>(
    alloc: A,
    store: &Store<D, A>,
    shown: Shown<'s>,
    view: View,
) -> Result<Answer<A>, Trouble<'s>>
    ensures { Answers (SaysSight view (sight_of shown.entry) store.now.hill) result }
{
    let text = sight_text(alloc, store, shown, view)?;
    Ok(Answer::done(alloc, text))
}

/// The table of a store's hill, or its settings in place of that.
fn sight_text<D: Device, A: Allocator + Copy>(
    alloc: A,
    store: &Store<D, A>,
    shown: Shown<'_>,
    view: View,
) -> Result<Vec<u8, A>, AllocError>
    ensures { IfOk result (λ text. text.items ≡ sight_text view (sight_of shown.entry) store.now.hill) }
{
    if shown.settings {
        settings_text(alloc, store.hill().settings(), shown.with_seed)
    } else {
        shown_text(alloc, store, shown.matches, view)
    }
}

/// The table of a store's hill, and the matrix of its matches if that is asked for.
fn shown_text<D: Device, A: Allocator + Copy>(
    alloc: A,
    store: &Store<D, A>,
    matches: bool,
    view: View,
) -> Result<Vec<u8, A>, AllocError>
    ensures { IfOk result (λ text. text.items ≡ shown_text view matches store.now.hill) }
{
    match view {
        View::Plain => shown_lines(alloc, store, matches),
        View::Table => shown_table(alloc, store, matches),
        View::Json => {
            let hill = store.hill();
            hill_text(alloc, hill, given_as(hill.settings()), matches)
        }
    }
}

/// The lines for programs.
fn shown_lines<D: Device, A: Allocator + Copy>(
    alloc: A,
    store: &Store<D, A>,
    matches: bool,
) -> Result<Vec<u8, A>, AllocError>
    ensures { IfOk result (λ text. text.items ≡ shown_lines matches store.now.hill) }
{
    let mut text = table_of(alloc, store)?;
    if matches {
        let matrix = matches_text(alloc, store.hill())?;
        text.extend_from_slice(matrix.as_slice())?;
    }
    Ok(text)
}

/// The columns for people.
fn shown_table<D: Device, A: Allocator + Copy>(
    alloc: A,
    store: &Store<D, A>,
    matches: bool,
) -> Result<Vec<u8, A>, AllocError>
    ensures { IfOk result (λ text. text.items ≡ shown_table matches store.now.hill) }
{
    if matches {
        return table_with_matches(alloc, store);
    }
    hill_view(alloc, store.hill())
}

fn table_with_matches<D: Device, A: Allocator + Copy>(
    alloc: A,
    store: &Store<D, A>,
) -> Result<Vec<u8, A>, AllocError>
    ensures { IfOk result (λ text. text.items ≡ shown_table true store.now.hill) }
{
    let mut text = hill_view(alloc, store.hill())?;
    let matrix = shown_matrix(alloc, store.hill())?;
    text.extend_from_slice(b"\n")?;
    text.extend_from_slice(matrix.as_slice())?;
    Ok(text)
}

/// The matrix for people: in columns, or as programs get it if a terminal has no room for these.
fn shown_matrix<A: Allocator + Copy>(alloc: A, hill: &Hill<A>) -> Result<Vec<u8, A>, AllocError>
    ensures { IfOk result (λ text. text.items ≡ shown_matrix hill.now) }
{
    let columns = matches_view(alloc, hill)?;
    if longest_line(columns.as_slice()) > TERMINAL_WIDTH {
        return matches_text(alloc, hill);
    }
    Ok(columns)
}

//! What the arguments that `clap` took give a command.

ghost use Rattle.std.specs.Prelude.{◌≡◌, codes, map, option_map, IfOk};
ghost use Rattle.{clap.specs.Words.{all_of, first_of, found_of, one_of, rows_of}, koth_words.specs.{Options.{number_given, number_or}, Sources.{place, place_named, words_in}}};
ghost use Rattle.koth_words.specs.Words.{asks_json, form_in, form_under, has_flag, has_option, has_setting, is_remote, matches_in, sends_input, text_or_none, view_in, IsSent, IsWay};

use crate::hills::{Audited, Copied, Creation, Reseeded, Sent, ShownAt, Submission, Way};
use crate::options::{number_given, number_if_given};
use crate::requests::{Form, Migration, Shown, View};
use crate::sources::source_named;
use clap::ArgMatches;
use std::alloc::{AllocError, Global};

/// Seconds for which nothing may come from a hill elsewhere, unless `--timeout` is given.
const SILENT: u32 = 600;

/// The texts that are given under this name, in their order.
pub(crate) fn texts_given<'w>(
    heap: Global,
    matches: &ArgMatches<'w>,
    name: &str,
) -> Result<Vec<&'w str>, AllocError>
    ensures { IfOk result (λ texts. map (λ text. text.now) texts.items
        ≡ words_in name.now (rows_of (found_of matches.now))) }
{
    let mut texts = Vec::new(heap);
    texts.extend_from_slice(words_given(matches, name).unwrap_or(&[]))?;
    Ok(texts)
}

/// The words that are given under this name, in their order, if there are any.
pub(crate) fn words_given<'m, 'w>(matches: &'m ArgMatches<'w>, name: &str) -> Option<&'m [&'w str]>
    ensures { option_map (λ words. map (λ word. word.now) words.now) result
        ≡ all_of name.now (rows_of (found_of matches.now)) }
{
    matches.get_strs(name)
}

pub(crate) fn form_given(matches: &ArgMatches<'_>) -> Form
    ensures { result ≡ form_in (rows_of (found_of matches.now)) }
{
    form_under(matches, "format")
}

/// The form that the option of this name asks for; lines for people if it is left out.
pub(crate) fn form_under(matches: &ArgMatches<'_>, name: &str) -> Form
    ensures { result ≡ form_under name.now (rows_of (found_of matches.now)) }
{
    if text_given(matches, name) == Some("json") {
        Form::Json
    } else {
        Form::Text
    }
}

/// Whether `--format` is `json`.
pub(crate) fn asks_json(matches: &ArgMatches<'_>) -> bool
    ensures { result ≡ asks_json (rows_of (found_of matches.now)) }
{
    text_given(matches, "format") == Some("json")
}

/// The layout that is asked for, if one is.
pub(crate) fn view_given(matches: &ArgMatches<'_>) -> Option<View>
    ensures { result ≡ view_in (rows_of (found_of matches.now)) }
{
    if flag_given(matches, "plain") {
        Some(View::Plain)
    } else if flag_given(matches, "table") {
        Some(View::Table)
    } else if asks_json(matches) {
        Some(View::Json)
    } else {
        None
    }
}

pub(crate) fn creation_named<'w>(matches: &ArgMatches<'w>) -> Creation<'w>
    ensures hill { result.hill.now ≡ text_or_none (first_of (codes "FILE") (rows_of (found_of matches.now))) }
    ensures overwrite { result.overwrite ≡ has_flag (codes "overwrite") (rows_of (found_of matches.now)) }
    ensures draw_seed { result.draw_seed ≡ has_flag (codes "draw-seed") (rows_of (found_of matches.now)) }
{
    Creation {
        hill: file_named(matches, "FILE"),
        overwrite: flag_given(matches, "overwrite"),
        draw_seed: flag_given(matches, "draw-seed"),
    }
}

pub(crate) fn submission_named<'w>(matches: &ArgMatches<'w>) -> Submission<'w>
    ensures hill { result.hill.now ≡ text_or_none (first_of (codes "FILE") (rows_of (found_of matches.now))) }
    ensures source { place result.source ≡ place_named (codes "SOURCE") (rows_of (found_of matches.now)) }
    ensures view { result.view ≡ view_in (rows_of (found_of matches.now)) }
    ensures wait { result.wait ≡ number_or 0 (one_of (codes "wait") (rows_of (found_of matches.now))) }
{
    Submission {
        hill: file_named(matches, "FILE"),
        source: source_named(matches, "SOURCE"),
        view: view_given(matches),
        wait: number_given(matches, "wait", 0),
    }
}

/// Whether the hill is elsewhere.
pub(crate) fn is_remote(matches: &ArgMatches<'_>) -> bool
    ensures { result ≡ is_remote (rows_of (found_of matches.now)) }
{
    option_given(matches, "to") | flag_given(matches, "pipe")
}

/// Whether the source that is sent there is the input.
pub(crate) fn sends_input(matches: &ArgMatches<'_>) -> bool
    ensures { result ≡ sends_input (rows_of (found_of matches.now)) }
{
    is_remote(matches) & (file_named(matches, "FILE") == "-")
}

pub(crate) fn sent_named<'w>(matches: &ArgMatches<'w>) -> Sent<'w>
    ensures { IsSent (rows_of (found_of matches.now)) result }
{
    Sent {
        way: way_given(matches),
        source: source_named(matches, "FILE"),
        view: view_given(matches),
    }
}

/// The way to a hill elsewhere.
fn way_given<'w>(matches: &ArgMatches<'w>) -> Way<'w>
    ensures { IsWay (rows_of (found_of matches.now)) result }
{
    if flag_given(matches, "pipe") {
        Way::Pipe
    } else {
        Way::To(file_named(matches, "to"), timeout_given(matches))
    }
}

pub(crate) fn shown_at_named<'w>(matches: &ArgMatches<'w>) -> ShownAt<'w>
    ensures to { result.to.now ≡ text_or_none (first_of (codes "to") (rows_of (found_of matches.now))) }
    ensures timeout { result.timeout ≡ number_or 600 (one_of (codes "timeout") (rows_of (found_of matches.now))) }
    ensures view { result.view ≡ view_in (rows_of (found_of matches.now)) }
{
    ShownAt {
        to: file_named(matches, "to"),
        timeout: timeout_given(matches),
        view: view_given(matches),
    }
}

/// The seconds for which nothing may come from a hill elsewhere.
fn timeout_given(matches: &ArgMatches<'_>) -> u32
    ensures { result ≡ number_or 600 (one_of (codes "timeout") (rows_of (found_of matches.now))) }
{
    number_given(matches, "timeout", SILENT)
}

pub(crate) fn shown_named<'w>(matches: &ArgMatches<'w>) -> Shown<'w>
    ensures hill { result.hill.now ≡ text_or_none (first_of (codes "FILE") (rows_of (found_of matches.now))) }
    ensures matches { result.matches ≡ matches_in (rows_of (found_of matches.now)) }
    ensures settings { result.settings ≡ has_flag (codes "settings") (rows_of (found_of matches.now)) }
    ensures with_seed { result.with_seed ≡ has_flag (codes "with-seed") (rows_of (found_of matches.now)) }
    ensures entry { result.entry ≡ number_given 4294967296 (one_of (codes "entry") (rows_of (found_of matches.now))) }
    ensures view { result.view ≡ view_in (rows_of (found_of matches.now)) }
{
    Shown {
        hill: file_named(matches, "FILE"),
        matches: flag_given(matches, "matches"),
        settings: flag_given(matches, "settings"),
        with_seed: flag_given(matches, "with-seed"),
        entry: number_if_given(matches, "entry"),
        view: view_given(matches),
    }
}

/// Whether an option that gives a setting is given.
pub(crate) fn setting_given(matches: &ArgMatches<'_>) -> bool
    ensures { result ≡ has_setting (rows_of (found_of matches.now)) }
{
    option_given(matches, "core")
        | option_given(matches, "cycles")
        | option_given(matches, "processes")
        | option_given(matches, "length")
        | option_given(matches, "distance")
        | option_given(matches, "rounds")
        | option_given(matches, "seed")
        | option_given(matches, "capacity")
        | option_given(matches, "read-limit")
        | option_given(matches, "write-limit")
        | option_given(matches, "preset")
}

pub(crate) fn migration_named<'w>(matches: &ArgMatches<'w>) -> Migration<'w>
    ensures old { result.old.now ≡ text_or_none (first_of (codes "FILE") (rows_of (found_of matches.now))) }
    ensures new { result.new.now ≡ text_or_none (first_of (codes "NEW") (rows_of (found_of matches.now))) }
{
    Migration {
        old: file_named(matches, "FILE"),
        new: file_named(matches, "NEW"),
    }
}

pub(crate) fn audited_named<'w>(matches: &ArgMatches<'w>) -> Audited<'w>
    ensures hill { result.hill.now ≡ text_or_none (first_of (codes "FILE") (rows_of (found_of matches.now))) }
    ensures view { result.view ≡ view_in (rows_of (found_of matches.now)) }
{
    Audited {
        hill: file_named(matches, "FILE"),
        view: view_given(matches),
    }
}

pub(crate) fn copied_named<'w>(matches: &ArgMatches<'w>) -> Copied<'w>
    ensures hill { result.hill.now ≡ text_or_none (first_of (codes "FILE") (rows_of (found_of matches.now))) }
    ensures new { result.new.now ≡ text_or_none (first_of (codes "NEW") (rows_of (found_of matches.now))) }
    ensures audit { result.audit ≡ has_flag (codes "audit") (rows_of (found_of matches.now)) }
{
    Copied {
        hill: file_named(matches, "FILE"),
        new: file_named(matches, "NEW"),
        audit: flag_given(matches, "audit"),
    }
}

pub(crate) fn reseeded_named<'w>(matches: &ArgMatches<'w>) -> Reseeded<'w>
    ensures hill { result.hill.now ≡ text_or_none (first_of (codes "FILE") (rows_of (found_of matches.now))) }
    ensures new { result.new.now ≡ text_or_none (first_of (codes "NEW") (rows_of (found_of matches.now))) }
    ensures seed { result.seed ≡ number_given 4294967296 (one_of (codes "seed") (rows_of (found_of matches.now))) }
{
    Reseeded {
        hill: file_named(matches, "FILE"),
        new: file_named(matches, "NEW"),
        seed: number_if_given(matches, "seed"),
    }
}

/// The file in this argument. `clap` refuses a command line without it.
pub(crate) fn file_named<'w>(matches: &ArgMatches<'w>, name: &str) -> &'w str
    ensures { result.now ≡ text_or_none (first_of name.now (rows_of (found_of matches.now))) }
{
    text_given(matches, name).unwrap_or("")
}

/// The text that is given under this name, if one is.
pub(crate) fn text_given<'w>(matches: &ArgMatches<'w>, name: &str) -> Option<&'w str>
    ensures { option_map (λ text. text.now) result ≡ first_of name.now (rows_of (found_of matches.now)) }
{
    matches.get_str(name)
}

pub(crate) fn option_given(matches: &ArgMatches<'_>, name: &str) -> bool
    ensures { result ≡ has_option name.now (rows_of (found_of matches.now)) }
{
    text_given(matches, name).is_some()
}

/// Whether the flag is given: `clap` then has the text `true` for it, else `false`.
pub(crate) fn flag_given(matches: &ArgMatches<'_>, name: &str) -> bool
    ensures { result ≡ has_flag name.now (rows_of (found_of matches.now)) }
{
    matches.get_one(name).unwrap_or(false)
}

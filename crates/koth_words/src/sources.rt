//! The sources that a command's words name.

ghost use Rattle.std.specs.Prelude.{◌≡◌, map, min, IfOk};
ghost use Rattle.{clap.specs.Words.{found_of, rows_of}, koth_words.specs.Sources.{input_name, inputs_at, inputs_in, place, place_at, place_named, places_named}};

use crate::given::{file_named, text_given, words_given};
use crate::requests::Source;
use clap::ArgMatches;
use std::alloc::{AllocError, Global};

/// The source in this argument, which has one.
pub(crate) fn source_named<'w>(matches: &ArgMatches<'w>, name: &str) -> Source<'w>
    ensures { place result ≡ place_named name.now (rows_of (found_of matches.now)) }
{
    source_at(file_named(matches, name), input_name(matches))
}

/// The sources in this argument, in their order.
pub(crate) fn sources_named<'w>(
    heap: Global,
    matches: &ArgMatches<'w>,
    name: &str,
) -> Result<Vec<Source<'w>>, AllocError>
    ensures { IfOk result (λ sources. map place sources.items
        ≡ places_named name.now (rows_of (found_of matches.now))) }
{
    let called = input_name(matches);
    let mut sources = Vec::new(heap);
    for word in words_given(matches, name).unwrap_or(&[]) {
        sources.push(source_at(word, called))?;
    }
    Ok(sources)
}

/// The source at a word: the input under this name, or the file of the word's name.
fn source_at<'w>(word: &'w str, called: &'w str) -> Source<'w>
    ensures { place result ≡ place_at called.now word.now }
{
    if word == "-" {
        Source::Input(called)
    } else {
        Source::File(word)
    }
}

/// What messages call the input.
fn input_name<'w>(matches: &ArgMatches<'w>) -> &'w str
    ensures { result.now ≡ input_name (rows_of (found_of matches.now)) }
{
    text_given(matches, "name").unwrap_or("standard input")
}

/// How many sources are the input.
pub(crate) fn inputs_given(matches: &ArgMatches<'_>) -> usize
    ensures { result ≡ min 18446744073709551615 (inputs_in (rows_of (found_of matches.now))) }
{
    inputs_at(matches, "SOURCE")
        .saturating_add(inputs_at(matches, "MINE"))
        .saturating_add(inputs_at(matches, "OTHER"))
        .saturating_add(inputs_at(matches, "FOLDER"))
}

/// How many words of this argument are `-`.
fn inputs_at(matches: &ArgMatches<'_>, name: &str) -> usize
    ensures { result ≡ inputs_at name.now (rows_of (found_of matches.now)) }
{
    words_given(matches, name)
        .unwrap_or(&[])
        .iter()
        .filter(|word| **word == "-")
        .count()
}

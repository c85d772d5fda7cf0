//! What the arguments that `clap` took give a command that assembles sources or plays matches.

ghost use Rattle.std.specs.Prelude.{◌≡◌, ◌∷◌, codes, map, option_map, IfOk};
ghost use Rattle.{clap.specs.Words.{first_of, found_of, one_of, rows_of}, koth_words.specs.{Fraction.part_in, Options.number_given, Sources.{place, place_named, places_named}}};
ghost use Rattle.koth_words.specs.Words.{form_in, has_flag, round_in, view_in, AreFighters, AreJoined, IsChecked, NamesField};

use crate::fraction::part_given;
use crate::given::{flag_given, form_given, option_given, text_given, view_given};
use crate::options::{number_given, number_if_given};
use crate::requests::{
    Assembled, Candidates, Checked, Fighters, Joined, Ranking, Round, Traced, Watched,
};
use crate::sources::{source_named, sources_named};
use clap::ArgMatches;
use std::alloc::{AllocError, Global};

pub(crate) fn assembled_named<'w>(matches: &ArgMatches<'w>) -> Assembled<'w>
    ensures source { place result.source ≡ place_named (codes "SOURCE") (rows_of (found_of matches.now)) }
    ensures define { option_map (λ text. text.now) result.define
        ≡ first_of (codes "define") (rows_of (found_of matches.now)) }
    ensures listing { result.listing ≡ has_flag (codes "listing") (rows_of (found_of matches.now)) }
{
    Assembled {
        source: source_named(matches, "SOURCE"),
        define: text_given(matches, "define"),
        listing: flag_given(matches, "listing"),
    }
}

/// The sources to check, and the form of the report.
pub(crate) fn checked_named<'w>(
    heap: Global,
    matches: &ArgMatches<'w>,
) -> Result<Checked<'w>, AllocError>
    ensures { IfOk result (IsChecked (rows_of (found_of matches.now))) }
{
    let deny = option_given(matches, "deny");
    Ok(Checked {
        files: sources_named(heap, matches, "SOURCE")?,
        form: form_given(matches),
        warnings: flag_given(matches, "warnings") | deny,
        deny,
        define: text_given(matches, "define"),
    })
}

pub(crate) fn fighters_named<'w>(
    heap: Global,
    matches: &ArgMatches<'w>,
) -> Result<Fighters<'w>, AllocError>
    ensures { IfOk result (AreFighters (rows_of (found_of matches.now))) }
{
    Ok(Fighters {
        older: source_named(matches, "MINE"),
        opponents: sources_named(heap, matches, "OTHER")?,
        both: flag_given(matches, "both"),
        each: flag_given(matches, "each"),
        view: view_given(matches),
        define: text_given(matches, "define"),
    })
}

pub(crate) fn candidates_named<'w>(
    heap: Global,
    matches: &ArgMatches<'w>,
) -> Result<Candidates<'w>, AllocError>
    ensures { IfOk result (λ candidates. map place candidates.opponents.items
        ≡ place_named (codes "MINE") (rows_of (found_of matches.now))
        ∷ places_named (codes "OTHER") (rows_of (found_of matches.now))) }
{
    let mut opponents = sources_named(heap, matches, "OTHER")?;
    opponents.insert(0, source_named(matches, "MINE"))?;
    Ok(Candidates { opponents })
}

pub(crate) fn watched_named<'w>(matches: &ArgMatches<'w>) -> Watched<'w>
    ensures older { place result.older ≡ place_named (codes "MINE") (rows_of (found_of matches.now)) }
    ensures younger { place result.younger ≡ place_named (codes "OTHER") (rows_of (found_of matches.now)) }
    ensures round { result.round ≡ round_in (rows_of (found_of matches.now)) }
    ensures page { option_map (λ file. file.now) result.page
        ≡ first_of (codes "output") (rows_of (found_of matches.now)) }
    ensures define { option_map (λ text. text.now) result.define
        ≡ first_of (codes "define") (rows_of (found_of matches.now)) }
{
    Watched {
        older: source_named(matches, "MINE"),
        younger: source_named(matches, "OTHER"),
        round: round_given(matches),
        page: text_given(matches, "output"),
        define: text_given(matches, "define"),
    }
}

pub(crate) fn traced_named<'w>(matches: &ArgMatches<'w>) -> Traced<'w>
    ensures older { place result.older ≡ place_named (codes "MINE") (rows_of (found_of matches.now)) }
    ensures younger { place result.younger ≡ place_named (codes "OTHER") (rows_of (found_of matches.now)) }
    ensures round { result.round ≡ round_in (rows_of (found_of matches.now)) }
    ensures last { result.last ≡ number_given 4294967296 (one_of (codes "last") (rows_of (found_of matches.now))) }
    ensures form { result.form ≡ form_in (rows_of (found_of matches.now)) }
    ensures define { option_map (λ text. text.now) result.define
        ≡ first_of (codes "define") (rows_of (found_of matches.now)) }
{
    Traced {
        older: source_named(matches, "MINE"),
        younger: source_named(matches, "OTHER"),
        round: round_given(matches),
        last: number_if_given(matches, "last"),
        form: form_given(matches),
        define: text_given(matches, "define"),
    }
}

/// The round that is asked for, and else the first.
fn round_given(matches: &ArgMatches<'_>) -> Round
    ensures { result ≡ round_in (rows_of (found_of matches.now)) }
{
    if flag_given(matches, "lost") {
        Round::Lost
    } else if flag_given(matches, "won") {
        Round::Won
    } else if flag_given(matches, "tied") {
        Round::Tied
    } else {
        Round::Number(number_given(matches, "round", 1))
    }
}

pub(crate) fn ranking_named<'w>(
    heap: Global,
    matches: &ArgMatches<'w>,
) -> Result<Ranking<'w>, AllocError>
    ensures { IfOk result (NamesField (rows_of (found_of matches.now))) }
{
    Ok(Ranking {
        field: sources_named(heap, matches, "FOLDER")?,
        both: flag_given(matches, "both"),
        view: view_given(matches),
        matches: flag_given(matches, "matches"),
        part: part_given(matches),
    })
}

pub(crate) fn joined_named<'w>(
    heap: Global,
    matches: &ArgMatches<'w>,
) -> Result<Joined<'w>, AllocError>
    ensures { IfOk result (AreJoined (rows_of (found_of matches.now))) }
{
    Ok(Joined {
        parts: sources_named(heap, matches, "FOLDER")?,
        view: view_given(matches),
    })
}

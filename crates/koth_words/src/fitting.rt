//! What doesn't fit a command that plays matches.

ghost use Rattle.std.specs.Prelude.{◌≡◌, is_some, not};
ghost use Rattle.{clap.specs.Words.{found_of, rows_of}, koth_words.specs.Words.{fits_join, fits_many, fits_part, has_clear_contest, has_opponents}};

use crate::given::{flag_given, option_given, setting_given, view_given};
use crate::sources::inputs_given;
use clap::ArgMatches;

/// Why a contest is not clear, if it isn't: no opponent, or what doesn't go together.
pub(crate) fn unclear_contest(given: &ArgMatches<'_>) -> Option<&'static str>
    ensures { is_some result ≡ not (has_clear_contest (rows_of (found_of given.now))) }
{
    if !has_opponents(given) {
        return Some("a younger warrior is needed after <MINE>: <OTHER>...");
    }
    if !fits_many(given) {
        return Some(
            "the argument '--many' cannot be used with '--both', '--each', '--define <NAME=VALUE>', a layout or '-'",
        );
    }
    if !fits_part(given) {
        return Some("the argument '--part <K/N>' cannot be used with '--matches' or a layout");
    }
    if !fits_join(given) {
        return Some(
            "the argument '--join' takes files of parts and a layout: all else is as in the parts",
        );
    }
    None
}

/// Whether `fight` has an opponent, or opponents of many warriors.
fn has_opponents(given: &ArgMatches<'_>) -> bool
    ensures { result ≡ has_opponents (rows_of (found_of given.now)) }
{
    !(option_given(given, "many") & !flag_given(given, "many") & !option_given(given, "OTHER"))
}

/// Whether what is given fits warriors that come by standard input, if they do.
fn fits_many(given: &ArgMatches<'_>) -> bool
    ensures { result ≡ fits_many (rows_of (found_of given.now)) }
{
    let otherwise = flag_given(given, "both")
        | flag_given(given, "each")
        | option_given(given, "define")
        | view_given(given).is_some()
        | (inputs_given(given) > 0);
    !(flag_given(given, "many") & otherwise)
}

/// Whether what is given fits a part of a field's matches, if one is asked for.
fn fits_part(given: &ArgMatches<'_>) -> bool
    ensures { result ≡ fits_part (rows_of (found_of given.now)) }
{
    let whole = flag_given(given, "matches") | view_given(given).is_some();
    !(option_given(given, "part") & whole)
}

/// Whether what is given fits parts that are joined, if they are.
fn fits_join(given: &ArgMatches<'_>) -> bool
    ensures { result ≡ fits_join (rows_of (found_of given.now)) }
{
    let of_parts = flag_given(given, "both")
        | flag_given(given, "matches")
        | option_given(given, "part")
        | setting_given(given)
        | option_given(given, "like");
    !(flag_given(given, "join") & of_parts)
}

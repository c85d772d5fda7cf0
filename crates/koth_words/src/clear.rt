//! What the program refuses of the words that `clap` takes.

ghost use Rattle.std.specs.Prelude.{◌≡◌, None, is_some, not, true};
ghost use Rattle.{clap.specs.Words.{found_of, rows_of}, koth_words.specs.Words.{at_most_one, fits_elsewhere, has_clear_hill, has_clear_inputs, has_clear_sources, has_known_forms, has_known_texts, has_known_words, has_needs, has_one_choice, has_use, is_of_pages, is_table, shows_page, names_hill, AreClear}};

use crate::fitting::unclear_contest;
use crate::fraction::part_given;
use crate::given::{
    asks_json, flag_given, is_remote, option_given, sends_input, setting_given, text_given,
    view_given, words_given,
};
use crate::place::writes_place;
use crate::requests::View;
use crate::serving::has_address;
use crate::sources::inputs_given;
use clap::ArgMatches;

/// Why words are not clear, if they aren't, where tables are in this view.
pub(crate) fn unclear(view: View, given: &ArgMatches<'_>) -> Option<&'static str>
    ensures clear { result ≡ None → AreClear view (rows_of (found_of given.now)) }
    ensures unclear { is_some result ≡ true → ¬ AreClear view (rows_of (found_of given.now)) }
{
    if let Some(why) = second_choice(given) {
        return Some(why);
    }
    if let Some(why) = unknown_text(given) {
        return Some(why);
    }
    if let Some(why) = unclear_sources(given) {
        return Some(why);
    }
    if let Some(why) = unmet_need(view, given) {
        return Some(why);
    }
    if !has_address(given) {
        return Some(
            "the argument '--listen <ADDRESS>' takes an IPv4 or IPv6 address of one machine, without a port",
        );
    }
    None
}

/// Two things of which only one can be had.
fn second_choice(given: &ArgMatches<'_>) -> Option<&'static str>
    ensures { is_some result ≡ not (has_one_choice (rows_of (found_of given.now))) }
{
    if !at_most_one(&[
        flag_given(given, "plain"),
        flag_given(given, "table"),
        asks_json(given),
    ]) {
        return Some(
            "the arguments '--plain', '--table' and '--format json' cannot be used together",
        );
    }
    if !at_most_one(&[flag_given(given, "draw-seed"), option_given(given, "seed")]) {
        return Some("the argument '--draw-seed' cannot be used with '--seed <NUMBER>'");
    }
    if !at_most_one(&[option_given(given, "like"), option_given(given, "preset")]) {
        return Some("the argument '--like <FILE>' cannot be used with '--preset <NAME>'");
    }
    if !at_most_one(&[flag_given(given, "settings"), flag_given(given, "matches")]) {
        return Some("the argument '--settings' cannot be used with '--matches'");
    }
    let of_table = flag_given(given, "settings") | flag_given(given, "matches");
    if option_given(given, "entry") & (of_table | view_given(given).is_some()) {
        return Some(
            "the argument '--entry <NUMBER>' cannot be used with '--settings', '--matches' or a layout",
        );
    }
    if !at_most_one(&[
        option_given(given, "round"),
        flag_given(given, "lost"),
        flag_given(given, "won"),
        flag_given(given, "tied"),
    ]) {
        return Some(
            "the arguments '--round <NUMBER>', '--lost', '--won' and '--tied' cannot be used together",
        );
    }
    None
}

/// Whether at most one of these is given.
fn at_most_one(given: &[bool]) -> bool
    ensures { result ≡ at_most_one given.now }
{
    given.iter().filter(|is_given| **is_given).count() <= 1
}

/// An option with a text that it doesn't take.
fn unknown_text(given: &ArgMatches<'_>) -> Option<&'static str>
    ensures { is_some result ≡ not (has_known_texts (rows_of (found_of given.now))) }
{
    if let Some(why) = unknown_word(given) {
        return Some(why);
    }
    unknown_form(given)
}

/// A format, a preset or what is denied that is none.
fn unknown_word(given: &ArgMatches<'_>) -> Option<&'static str>
    ensures { is_some result ≡ not (has_known_words (rows_of (found_of given.now))) }
{
    if !matches!(text_given(given, "format"), None | Some("text" | "json")) {
        return Some("the argument '--format <FORM>' takes 'text' or 'json'");
    }
    if !matches!(
        text_given(given, "preset"),
        None | Some("94nop" | "tiny" | "nano")
    ) {
        return Some("the argument '--preset <NAME>' takes '94nop', 'tiny' or 'nano'");
    }
    if !matches!(text_given(given, "deny"), None | Some("warnings")) {
        return Some("the argument '--deny <WHAT>' takes 'warnings'");
    }
    None
}

/// A form of the lines of a service, or a part, that is none.
fn unknown_form(given: &ArgMatches<'_>) -> Option<&'static str>
    ensures { is_some result ≡ not (has_known_forms (rows_of (found_of given.now))) }
{
    if !matches!(
        text_given(given, "log-format"),
        None | Some("text" | "json")
    ) {
        return Some("the argument '--log-format <FORM>' takes 'text' or 'json'");
    }
    if option_given(given, "part") & part_given(given).is_none() {
        return Some(
            "the argument '--part <K/N>' takes two whole numbers, K from 1 to N and N to 4294967295",
        );
    }
    None
}

/// Sources that are not clear, or a contest of theirs that isn't.
fn unclear_sources(given: &ArgMatches<'_>) -> Option<&'static str>
    ensures { is_some result ≡ not (has_clear_sources (rows_of (found_of given.now))) }
{
    if let Some(why) = unclear_inputs(given) {
        return Some(why);
    }
    unclear_contest(given)
}

/// Sources of which two are one, or that the words say too much of.
fn unclear_inputs(given: &ArgMatches<'_>) -> Option<&'static str>
    ensures { is_some result ≡ not (has_clear_inputs (rows_of (found_of given.now))) }
{
    let inputs = inputs_given(given);
    if inputs > 1 {
        return Some("only one source can be '-', which is standard input");
    }
    if option_given(given, "name") & (inputs == 0) & !sends_input(given) {
        return Some("the argument '--name <NAME>' needs '-' as a source");
    }
    let others = words_given(given, "OTHER").unwrap_or(&[]).len();
    if flag_given(given, "each") & (flag_given(given, "both") | (others > 1)) {
        return Some("the argument '--each' takes one opponent, and cannot be used with '--both'");
    }
    None
}

/// What something that is given needs, and is not given.
fn unmet_need(view: View, given: &ArgMatches<'_>) -> Option<&'static str>
    ensures { is_some result ≡ not (has_needs view (rows_of (found_of given.now))) }
{
    if let Some(why) = without_use(view, given) {
        return Some(why);
    }
    unclear_hill(given)
}

/// What is given and of no use.
fn without_use(view: View, given: &ArgMatches<'_>) -> Option<&'static str>
    ensures { is_some result ≡ not (has_use view (rows_of (found_of given.now))) }
{
    if option_given(given, "port") & setting_given(given) & !flag_given(given, "create") {
        return Some(
            "options that give settings need '--create': a hill that is there keeps its own",
        );
    }
    if shows_page(given) & is_table(view) & !option_given(given, "output") {
        return Some("a page needs '--output <FILE>' where standard output is a terminal");
    }
    if flag_given(given, "with-seed") & !flag_given(given, "settings") {
        return Some("the argument '--with-seed' needs '--settings'");
    }
    if is_of_pages(given) & !option_given(given, "http") {
        return Some(
            "the arguments '--replays', '--host <NAME>', '--title <TEXT>' and '--peers-at <ADDRESS>' need '--http <NUMBER>'",
        );
    }
    None
}

/// Whether this is `replay`: only it shows a round and has no format.
fn shows_page(given: &ArgMatches<'_>) -> bool
    ensures { result ≡ shows_page (rows_of (found_of given.now)) }
{
    option_given(given, "lost") & !option_given(given, "format")
}

/// A hill that is not named, or that something doesn't fit.
fn unclear_hill(given: &ArgMatches<'_>) -> Option<&'static str>
    ensures { is_some result ≡ not (has_clear_hill (rows_of (found_of given.now))) }
{
    if let Some(why) = unnamed_hill(given) {
        return Some(why);
    }
    unfit_elsewhere(given)
}

/// A hill that is not named, or named twice.
fn unnamed_hill(given: &ArgMatches<'_>) -> Option<&'static str>
    ensures { is_some result ≡ not (names_hill (rows_of (found_of given.now))) }
{
    if option_given(given, "pipe") & !is_remote(given) & !option_given(given, "SOURCE") {
        return Some("a hill file and a source are needed, or '--to <ADDRESS:PORT>' and a source");
    }
    if is_remote(given) & option_given(given, "SOURCE") {
        return Some("a hill file cannot be used with '--to <ADDRESS:PORT>' or '--pipe'");
    }
    if option_given(given, "with-seed")
        & !option_given(given, "to")
        & !option_given(given, "FILE")
    {
        return Some("a hill file is needed, or '--to <ADDRESS:PORT>'");
    }
    if option_given(given, "with-seed") & option_given(given, "to") & option_given(given, "FILE") {
        return Some("a hill file cannot be used with '--to <ADDRESS:PORT>'");
    }
    None
}

/// What doesn't go with a hill elsewhere, or goes with no other.
fn unfit_elsewhere(given: &ArgMatches<'_>) -> Option<&'static str>
    ensures { is_some result ≡ not (fits_elsewhere (rows_of (found_of given.now))) }
{
    if !at_most_one(&[
        option_given(given, "wait"),
        option_given(given, "to"),
        flag_given(given, "pipe"),
    ]) {
        return Some(
            "the arguments '--wait <NUMBER>', '--to <ADDRESS:PORT>' and '--pipe' cannot be used together",
        );
    }
    let of_file = flag_given(given, "settings") | flag_given(given, "matches");
    if option_given(given, "to") & of_file {
        return Some("the arguments '--settings' and '--matches' need a hill file");
    }
    if option_given(given, "to") & option_given(given, "entry") {
        return Some("the argument '--entry <NUMBER>' needs a hill file");
    }
    if option_given(given, "timeout") & !option_given(given, "to") {
        return Some("the argument '--timeout <NUMBER>' needs '--to <ADDRESS:PORT>'");
    }
    let settings = setting_given(given) | option_given(given, "like");
    if option_given(given, "pipe") & !is_remote(given) & settings {
        return Some(
            "options that give settings need '--to <ADDRESS:PORT>' or '--pipe': a hill in a file has its own",
        );
    }
    if flag_given(given, "pipe") & sends_input(given) {
        return Some("the argument '--pipe' needs a source in a file");
    }
    if !writes_place(given) {
        return Some(
            "the argument '--to <ADDRESS:PORT>' takes a name or a number, IPv6 in brackets, and a port from 1 to 65535",
        );
    }
    None
}

/// Whether something is given that only pages use.
fn is_of_pages(given: &ArgMatches<'_>) -> bool
    ensures { result ≡ is_of_pages (rows_of (found_of given.now)) }
{
    flag_given(given, "replays")
        | option_given(given, "host")
        | option_given(given, "title")
        | option_given(given, "peers-at")
}

fn is_table(view: View) -> bool
    ensures { result ≡ is_table view }
{
    matches!(view, View::Table)
}

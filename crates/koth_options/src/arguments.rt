//! The files, options and flags of the commands, one by one.

ghost use Rattle.std.specs.Prelude.{codes, pos};
ghost use Rattle.koth_options.specs.{Arguments.{rule_at, IsArg}, Commands.{defaulted_rule, file_rule, flag_rule, page_rule, source_or_input_rule, sources_rule, spare_rule, spare_sources_rule, texts_rule}, Options.{lettered_rule, ranged_rule, required_rule, text_rule}};

use clap::builder::ValueParser;
use clap::{Arg, ArgAction};
use std::alloc::Global;

/// The greatest number of 32 bits.
const MOST: i64 = 4_294_967_295;

/// A file, an option or a flag of a command: its name, what else words say of it, and its help.
#[derive(Clone, Copy)]
pub(crate) enum Argument {
    /// A file that has to be named.
    File(&'static str, &'static str),
    /// A file that may be left out.
    Spare(&'static str, &'static str),
    /// A source that is the input if none is named.
    SourceOrInput,
    /// One source or more.
    Sources(&'static str, &'static str),
    /// Sources, of which there may be none.
    SpareSources(&'static str, &'static str),
    /// An option with a text, which help calls so.
    Text(&'static str, &'static str, &'static str),
    /// An option with a text, which may be given more than once.
    Texts(&'static str, &'static str, &'static str),
    /// An option with a text, and the one that it has if it is left out.
    Defaulted(&'static str, &'static str, &'static str, &'static str),
    /// The option for the file of a page.
    Page(&'static str),
    /// The option for a port, which has to be given.
    Port,
    /// An option with a whole number of 32 bits.
    Number(&'static str, &'static str),
    /// One that a letter names too.
    Lettered(&'static str, char, &'static str),
    /// An option with a whole number from the least to the greatest.
    Ranged(&'static str, i64, i64, &'static str),
    /// A flag, which takes no value.
    Flag(&'static str, &'static str),
}

impl Argument {
    /// The argument, as `clap` reads it.
    pub(crate) fn arg<'a>(&self, heap: Global) -> Arg<'a>
        ensures { IsArg (rule_at self.now) result }
    {
        match *self {
            Argument::File(name, help) => file(heap, name, help),
            Argument::Spare(name, help) => spare(heap, name, help),
            Argument::SourceOrInput => source_or_input(heap),
            Argument::Sources(name, help) => sources(heap, name, help),
            Argument::SpareSources(name, help) => spare_sources(heap, name, help),
            Argument::Text(name, value, help) => text(heap, name, value, help),
            Argument::Texts(name, value, help) => texts(heap, name, value, help),
            Argument::Defaulted(name, value, default, help) => {
                defaulted(heap, name, value, default, help)
            }
            Argument::Page(help) => page_file(heap, help),
            Argument::Port => port(heap),
            Argument::Number(name, help) => ranged(heap, name, 0, MOST, help),
            Argument::Lettered(name, letter, help) => lettered(heap, name, letter, help),
            Argument::Ranged(name, least, most, help) => ranged(heap, name, least, most, help),
            Argument::Flag(name, help) => flag(heap, name, help),
        }
    }
}

fn file<'a>(heap: Global, name: &'a str, help: &'a str) -> Arg<'a>
    ensures { IsArg (file_rule name.entry.now) result }
{
    Arg::new(heap, name).required(true).help(help)
}

/// A file that may be left out.
fn spare<'a>(heap: Global, name: &'a str, help: &'a str) -> Arg<'a>
    ensures { IsArg (spare_rule name.entry.now) result }
{
    Arg::new(heap, name).help(help)
}

/// A source that is the input if none is named.
fn source_or_input<'a>(heap: Global) -> Arg<'a>
    ensures { IsArg source_or_input_rule result }
{
    Arg::new(heap, "SOURCE")
        .default_value("-")
        .help("File of the source; - is standard input")
}

/// One source or more.
fn sources<'a>(heap: Global, name: &'a str, help: &'a str) -> Arg<'a>
    ensures { IsArg (sources_rule name.entry.now) result }
{
    file(heap, name, help).action(ArgAction::Append)
}

/// Sources, of which there may be none.
fn spare_sources<'a>(heap: Global, name: &'a str, help: &'a str) -> Arg<'a>
    ensures { IsArg (spare_sources_rule name.entry.now) result }
{
    spare(heap, name, help).action(ArgAction::Append)
}

/// An option with a text.
fn text<'a>(heap: Global, name: &'a str, value: &'a str, help: &'a str) -> Arg<'a>
    ensures { IsArg (text_rule name.entry.now) result }
{
    Arg::new(heap, name).long(name).value_name(value).help(help)
}

/// An option with a text, which may be given more than once.
fn texts<'a>(heap: Global, name: &'a str, value: &'a str, help: &'a str) -> Arg<'a>
    ensures { IsArg (texts_rule name.entry.now) result }
{
    text(heap, name, value, help).action(ArgAction::Append)
}

/// An option with a text, and the one that it has if it is left out.
fn defaulted<'a>(
    heap: Global,
    name: &'a str,
    value: &'a str,
    default: &'a str,
    help: &'a str,
) -> Arg<'a>
    ensures { IsArg (defaulted_rule name.entry.now default.entry.now) result }
{
    text(heap, name, value, help).default_value(default)
}

/// The option for the file of a page.
fn page_file<'a>(heap: Global, help: &'a str) -> Arg<'a>
    ensures { IsArg page_rule result }
{
    text(heap, "output", "FILE", help).short('o')
}

fn port<'a>(heap: Global) -> Arg<'a>
    ensures { IsArg (required_rule (codes "port") 65535) result }
{
    let help = "Port to listen at, 0 to 65535; at 0 the system chooses one";
    ranged(heap, "port", 0, 65535, help).required(true)
}

/// An option with a whole number of 32 bits, which a letter names too.
fn lettered<'a>(heap: Global, name: &'a str, letter: char, help: &'a str) -> Arg<'a>
    ensures { IsArg (lettered_rule name.entry.now letter) result }
{
    ranged(heap, name, 0, MOST, help).short(letter)
}

/// An option with a whole number from the least to the greatest.
fn ranged<'a>(heap: Global, name: &'a str, least: i64, greatest: i64, help: &'a str) -> Arg<'a>
    ensures { IsArg (ranged_rule name.entry.now least greatest) result }
{
    let numbers = ValueParser::signed(least, greatest);
    let arg = Arg::new(heap, name).long(name).value_name("NUMBER");
    arg.value_parser(numbers).help(help)
}

fn flag<'a>(heap: Global, name: &'a str, help: &'a str) -> Arg<'a>
    ensures { IsArg (flag_rule name.entry.now) result }
{
    Arg::new(heap, name)
        .long(name)
        .action(ArgAction::SetTrue)
        .help(help)
}

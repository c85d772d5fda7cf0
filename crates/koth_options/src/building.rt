//! What commands are built of: their rows, and their arguments one by one.

ghost use Rattle.std.specs.Prelude.{fold, IfOk};
ghost use Rattle.clap.specs.Words.{App, new_app, with_subcommand};
ghost use Rattle.koth_options.specs.{Arguments.{app_at, with_argument, with_row}, Commands.IsReadAs};

use crate::arguments::Argument;
use crate::options::{with_like, with_settings};
use clap::Command;
use std::alloc::{AllocError, Global};

/// A command of the program.
pub(crate) struct Row {
    pub(crate) name: &'static str,
    pub(crate) about: &'static str,
    pub(crate) arguments: &'static [Argument],
    pub(crate) takes: Takes,
}

/// Which options for settings a command takes.
#[derive(Clone, Copy)]
pub(crate) enum Takes {
    Nothing,
    /// Those of `with_settings`.
    Settings,
    /// Those of `with_like`.
    Like,
}

/// The command with those of these rows among its own, if it was made.
pub(crate) fn with_rows<'a>(
    heap: Global,
    command: Result<Command<'a>, AllocError>,
    rows: &[Row],
) -> Result<Command<'a>, AllocError>
    ensures { (app : App) → IfOk command.entry (IsReadAs app) → IfOk result (IsReadAs (fold with_row app rows.now)) }
{
    let mut command = command;
    for row in rows {
        command = with_row(heap, command, row);
    }
    command
}

/// The command with that of a row among its own, if both were made.
fn with_row<'a>(
    heap: Global,
    command: Result<Command<'a>, AllocError>,
    row: &Row,
) -> Result<Command<'a>, AllocError>
    ensures { (app : App) → IfOk command.entry (IsReadAs app) → IfOk result (IsReadAs (with_row app row.now)) }
{
    match command {
        Ok(command) => with_command(command, command_of(heap, row)),
        Err(error) => Err(error),
    }
}

/// The command with this one among its own, if that was made.
fn with_command<'a>(
    command: Command<'a>,
    made: Result<Command<'a>, AllocError>,
) -> Result<Command<'a>, AllocError>
    ensures { (app sub : App) → IsReadAs app command.entry → IfOk made.entry (IsReadAs sub)
        → IfOk result (IsReadAs (with_subcommand app sub.top)) }
{
    match made {
        Ok(made) => command.subcommand(made),
        Err(error) => Err(error),
    }
}

/// The command of a row.
fn command_of<'a>(heap: Global, row: &Row) -> Result<Command<'a>, AllocError>
    ensures { IfOk result (IsReadAs (app_at row.now)) }
{
    let command = Ok(described(heap, row.name, row.about));
    let command = with_arguments(heap, command, row.arguments);
    match row.takes {
        Takes::Nothing => command,
        Takes::Settings => with_settings(heap, command),
        Takes::Like => with_like(heap, command),
    }
}

/// The command of this name, with what help says of it.
pub(crate) fn described<'a>(heap: Global, name: &'a str, about: &'a str) -> Command<'a>
    ensures { IsReadAs (new_app name.entry.now) result }
{
    Command::new(heap, name).about(about)
}

/// The command with these arguments more, if it was made.
pub(crate) fn with_arguments<'a>(
    heap: Global,
    command: Result<Command<'a>, AllocError>,
    arguments: &[Argument],
) -> Result<Command<'a>, AllocError>
    ensures { (app : App) → IfOk command.entry (IsReadAs app)
        → IfOk result (IsReadAs (fold with_argument app arguments.now)) }
{
    let mut command = command;
    for argument in arguments {
        command = with_argument(heap, command, argument);
    }
    command
}

/// The command with one argument more, if it was made.
fn with_argument<'a>(
    heap: Global,
    command: Result<Command<'a>, AllocError>,
    argument: &Argument,
) -> Result<Command<'a>, AllocError>
    ensures { (app : App) → IfOk command.entry (IsReadAs app)
        → IfOk result (IsReadAs (with_argument app argument.now)) }
{
    match command {
        Ok(command) => command.arg(argument.arg(heap)),
        Err(error) => Err(error),
    }
}

/// The command with this heading over the options that follow, if it was made.
pub(crate) fn headed<'a>(
    command: Result<Command<'a>, AllocError>,
    heading: &'a str,
) -> Result<Command<'a>, AllocError>
    ensures { (app : App) → IfOk command.entry (IsReadAs app) → IfOk result (IsReadAs app) }
{
    match command {
        Ok(command) => Ok(command.next_help_heading(heading)),
        Err(error) => Err(error),
    }
}

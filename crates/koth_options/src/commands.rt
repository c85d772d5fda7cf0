//! The commands with their files and options, as `clap` reads them.

ghost use Rattle.std.specs.Prelude.{◌∷◌, [], codes, IfOk};
ghost use Rattle.clap.specs.Words.{new_app};
ghost use Rattle.koth_options.specs.{Arguments.{commands_to_fight, with_commands}, Commands.{create_app, koth_app, serve_app, show_app, submit_app, wants_subcommand, with_version, IsReadAs}};

use crate::arguments::Argument::File;
use crate::building::{Row, Takes, described, with_rows};
use crate::contests::{FIGHT, RANK};
use crate::hills::{COPY, CREATE, RESEED, SHOW, SUBMIT, TRY};
use crate::options::{FORMAT, HILL_FILE, KEPT_FILE, STEPS, WAIT};
use crate::rounds::{REPLAY, TRACE};
use crate::serving::SERVE;
use crate::sources::{ASM, CHECK, EXPLAIN};
use clap::Command;
use std::alloc::{AllocError, Global};

/// The commands up to `fight`, in the order of the help.
const TO_FIGHT: [Row; 3] = [ASM, CHECK, FIGHT];

/// The commands from `create` to `serve`.
const TO_SERVE: [Row; 4] = [CREATE, SUBMIT, SHOW, SERVE];

/// The commands from `session` on.
const FROM_SESSION: [Row; 11] = [
    Row {
        name: "session",
        about: "Serves one session on a hill over standard input and output",
        arguments: &[HILL_FILE, WAIT, STEPS],
        takes: Takes::Nothing,
    },
    Row {
        name: "audit",
        about: "Plays the match of each pair on a hill again, and writes whether all kept results are right",
        arguments: &[HILL_FILE, FORMAT],
        takes: Takes::Nothing,
    },
    Row {
        name: "migrate",
        about: "Moves a hill of the old format to a new file, and writes MIGRATED",
        arguments: &[KEPT_FILE, File("NEW", "New hill file; created if missing")],
        takes: Takes::Nothing,
    },
    Row {
        name: "page",
        about: "Writes the page of a hill: its table and its matches, as one file for a browser",
        arguments: &[HILL_FILE],
        takes: Takes::Nothing,
    },
    REPLAY,
    TRACE,
    TRY,
    COPY,
    RESEED,
    RANK,
    EXPLAIN,
];

/// The program with its commands. The error is lack of memory.
pub fn koth_command<'a>(heap: Global) -> Result<Command<'a>, AllocError>
    ensures { IfOk result (IsReadAs koth_app) }
{
    with_rows(heap, commands_to_serve(heap), &FROM_SESSION)
}

/// The program with its commands up to `serve`.
fn commands_to_serve<'a>(heap: Global) -> Result<Command<'a>, AllocError>
    ensures { IfOk result (IsReadAs (with_commands commands_to_fight
        (create_app ∷ submit_app ∷ show_app ∷ serve_app ∷ []))) }
{
    with_rows(heap, commands_to_fight(heap), &TO_SERVE)
}

/// The program with its commands up to `fight`.
fn commands_to_fight<'a>(heap: Global) -> Result<Command<'a>, AllocError>
    ensures { IfOk result (IsReadAs commands_to_fight) }
{
    with_rows(heap, Ok(program(heap)), &TO_FIGHT)
}

fn program<'a>(heap: Global) -> Command<'a>
    ensures { IsReadAs (wants_subcommand (with_version (new_app (codes "koth")))) result }
{
    described(heap, "koth", "A King of the Hill server for Core War")
        .version("1.3.0")
        .after_help(
            "Status: 0 done; 1 refused; 2 usage; 3 a file or stream failed; 4 out of memory",
        )
        .subcommand_required(true)
}

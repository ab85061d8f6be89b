//! The command line of the program, as `clap` gets it.

ghost use Rattle.std.specs.Prelude.{◌≡◌, false, IfOk};
ghost use Rattle.clap.specs.Simple.{App, with_subcommand};
ghost use Rattle.clap.specs.Words.{rule_of};
ghost use Rattle.edf_command.specs.Inside.Commands.{Reads, convert_app, edfstore_app};
ghost use Rattle.edf_command.specs.Inside.Commands.{export_app, list_app, take_app};
ghost use Rattle.edf_command.specs.Inside.Commands.{edfstore_top, files_rule, required_rule};

use crate::help;
use clap::{Arg, ArgAction, Command};
use edf_cli::VERSION;
use std::alloc::{AllocError, Global};

/// Makes a value that must be given.
fn required_value<'a>(alloc: Global, name: &'a str, text: &'a str) -> Arg<'a>
    ensures rule { rule_of result ≡ required_rule name.now }
    ensures local { result.global ≡ false }
{
    Arg::new(alloc, name).help(text).required(true)
}

/// Makes the value for one file or more.
fn files<'a>(alloc: Global) -> Arg<'a>
    ensures rule { rule_of result ≡ files_rule }
    ensures local { result.global ≡ false }
{
    required_value(alloc, "FILE", help::FILES_VALUE)
        .action(ArgAction::Append)
        .num_args(1..)
}

fn take_command<'a>(alloc: Global) -> Result<Command<'a>, AllocError>
    ensures { IfOk result (λ c. Reads c take_app) }
{
    Command::new(alloc, "take")
        .about(help::TAKE)
        .long_about(help::TAKE_MORE)
        .after_help(help::TAKE_EXAMPLES)
        .arg(required_value(alloc, "STORE", help::STORE_VALUE))?
        .arg(files(alloc))
}

fn list_command<'a>(alloc: Global) -> Result<Command<'a>, AllocError>
    ensures { IfOk result (λ c. Reads c list_app) }
{
    Command::new(alloc, "list")
        .about(help::LIST)
        .long_about(help::LIST_MORE)
        .after_help(help::LIST_EXAMPLE)
        .arg(required_value(alloc, "STORE", help::STORE_VALUE))
}

pub(crate) fn export_command<'a>(alloc: Global) -> Result<Command<'a>, AllocError>
    ensures { IfOk result (λ c. Reads c export_app) }
{
    Command::new(alloc, "export")
        .about(help::EXPORT)
        .long_about(help::EXPORT_MORE)
        .after_help(help::EXPORT_EXAMPLE)
        .arg(required_value(alloc, "STORE", help::STORE_VALUE))?
        .arg(required_value(alloc, "PLACE", help::PLACE_VALUE))
}

fn convert_command<'a>(alloc: Global) -> Result<Command<'a>, AllocError>
    ensures { IfOk result (λ c. Reads c convert_app) }
{
    Command::new(alloc, "convert")
        .about(help::CONVERT)
        .long_about(help::CONVERT_MORE)
        .after_help(help::CONVERT_EXAMPLES)
        .arg(required_value(alloc, "FILE", help::FILE_VALUE))
}

/// Makes the program without its commands. Usage calls it `edfstore`, though that is none of the
/// words that are parsed.
fn program<'a>(alloc: Global) -> Result<Command<'a>, AllocError>
    ensures { IfOk result (λ c. Reads c edfstore_top) }
{
    Ok(
        Command::new(alloc, "edfstore")
            .bin_name("edfstore")?
            .version(VERSION)
            .about(help::EDFSTORE)
            .after_help(help::EDFSTORE_MORE)
            .no_binary_name(true)
            .subcommand_required(true),
    )
}

/// Adds a command to the program.
fn with_word<'a>(
    program: Command<'a>,
    word: Result<Command<'a>, AllocError>,
) -> Result<Command<'a>, AllocError>
    ensures { (top sub : App) → Reads program.entry top → IfOk word.entry (λ c. Reads c sub) →
        IfOk result (λ c. Reads c (with_subcommand top sub.top)) }
{
    program.subcommand(word?)
}

/// Makes the program with its commands `take`, `list`, `export` and `convert`.
pub(crate) fn edfstore_command<'a>(alloc: Global) -> Result<Command<'a>, AllocError>
    ensures { IfOk result (λ c. Reads c edfstore_app) }
{
    let takes = with_word(program(alloc)?, take_command(alloc))?;
    let lists = with_word(takes, list_command(alloc))?;
    let exports = with_word(lists, export_command(alloc))?;
    with_word(exports, convert_command(alloc))
}

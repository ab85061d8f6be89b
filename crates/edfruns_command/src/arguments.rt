//! The command line, read by `clap`. Lines of help are broken where they stand, since nothing else
//! breaks them.

use crate::canonical_command::{canonical_words, read_canonical};
use crate::compare_command::{compare_words, read_compare};
use crate::cut_command::{cut_words, read_cut};
use crate::fill_command::{fill_words, read_fill};
use crate::list_command::{list_words, read_list};
use crate::picture_command::{picture_words, read_picture};
use crate::runs_command::RunsCommand;
use crate::split_command::{read_split, split_words};
use clap::{Arg, ArgMatches, Command, Error};
use edf_cli::{CommandFault, Status, VERSION, fault_by, print_fault, refuse_value};
use edf_fragment::Output;
use std::alloc::{AllocError, Global};

/// What `edfruns` is.
const EDFRUNS: &str = "\
Shows the runs of a sleep recording, its stretches without a gap, and writes each
as an EDF+C file, which readers open that refuse EDF+D.";

/// How a night is looked at, and what the statuses mean.
const EDFRUNS_MORE: &str = "\
A run is a longest stretch of data records each of which starts where the one
before ends. FILE is any file that edfstore takes: EDF+C or EDF+D.

Example, a night with two gaps:
  edfruns list night.edf
  edfruns split night.edf night
  edfruns picture night.edf > night.svg

Status:
  0  done
  1  the file was refused, or a file is there; of 'compare' too: not all is known
  2  the words ask for nothing that can be done
  3  trouble with a file, standard output or memory";

/// Why words without a command are refused.
const NO_COMMAND: &str = "\
a command is wanted: list, split, fill, cut, compare, canonical or picture";

/// Why `-` is refused where a file is read twice.
const READ_TWICE: &str = "\
FILE is read twice, which standard input can't be: write it to a file first";

/// What to do in the place of `--shift` and `--tolerance`.
const NO_SHIFT: &str = "\
--tolerance and --shift are gone: 'edfruns fill FILE' makes one file, also where a clock drifts";

/// How `clap` refuses words that earlier versions had, and what to do in their place.
const GONE: [(&str, &str); 4] = [
    (
        "error: unrecognized subcommand 'write'\n",
        "'write' is gone: 'edfruns split FILE PREFIX' writes each run to a file",
    ),
    ("error: unexpected argument '--tolerance' found\n", NO_SHIFT),
    ("error: unexpected argument '--shift' found\n", NO_SHIFT),
    (
        "error: unexpected argument '--by-onset' found\n",
        "--by-onset is of 'edfruns canonical' alone: split the file that it writes",
    ),
];

/// A value that must be given.
pub(crate) fn required_value<'a>(alloc: Global, name: &'a str, text: &'a str) -> Arg<'a> {
    Arg::new(alloc, name).help(text).required(true)
}

/// The FILE of a command that reads it twice.
pub(crate) fn twice_read_file_value<'a>(alloc: Global) -> Arg<'a> {
    required_value(alloc, "FILE", "A file in EDF+C or EDF+D")
}

/// The value of that name, which `clap` demands.
pub(crate) fn value_in<'a>(values: &ArgMatches<'a>, name: &str) -> &'a str {
    values.get_str(name).unwrap_or("")
}

/// Refuses standard input as the FILE of a command of these words, which reads it twice and is
/// called by `name`.
pub(crate) fn refuse_stream<'a>(
    alloc: Global,
    words: Result<Command<'a>, AllocError>,
    name: &str,
) -> Result<CommandFault, AllocError> {
    refuse_value(alloc, words?, name, READ_TWICE)
}

/// The program before it has its words.
fn program<'a>(alloc: Global) -> Result<Command<'a>, AllocError> {
    Ok(
        Command::new(alloc, "edfruns")
            .bin_name("edfruns")?
            .version(VERSION)
            .about(EDFRUNS)
            .after_help(EDFRUNS_MORE)
            .no_binary_name(true)
            .subcommand_required(true),
    )
}

/// The program with its words, those of each command.
fn edfruns_words<'a>(alloc: Global) -> Result<Command<'a>, AllocError> {
    program(alloc)?
        .subcommand(list_words(alloc)?)?
        .subcommand(canonical_words(alloc)?)?
        .subcommand(fill_words(alloc)?)?
        .subcommand(cut_words(alloc)?)?
        .subcommand(compare_words(alloc)?)?
        .subcommand(split_words(alloc)?)?
        .subcommand(picture_words(alloc)?)
}

/// Why words without a command are refused.
fn refuse_no_command(alloc: Global) -> Result<CommandFault, AllocError> {
    refuse_value(alloc, edfruns_words(alloc)?, "edfruns", NO_COMMAND)
}

/// Why words are refused that `clap` does not take.
fn refuse_words(alloc: Global, error: &Error) -> Result<CommandFault, AllocError> {
    let fault = fault_by(alloc, error);
    if let CommandFault::Usage(text) = &fault {
        for (refused, instead) in GONE {
            if text.as_str().starts_with(refused) {
                return refuse_value(alloc, edfruns_words(alloc)?, "edfruns", instead);
            }
        }
    }
    Ok(fault)
}

/// What `clap` found, as a command.
fn command_in(alloc: Global, matches: &ArgMatches<'_>) -> Result<RunsCommand, CommandFault> {
    let Some((word, values)) = matches.subcommand() else {
        return Err(refuse_no_command(alloc)?);
    };
    match word {
        "list" => read_list(alloc, values),
        "canonical" => read_canonical(alloc, values),
        "fill" => read_fill(alloc, values),
        "cut" => read_cut(alloc, values),
        "compare" => read_compare(alloc, values),
        "split" => read_split(alloc, values),
        "picture" => read_picture(alloc, values),
        _ => Err(refuse_no_command(alloc)?),
    }
}

/// What the words after the program's name ask for.
///
/// The words are `list FILE..`, `canonical FILE`, `fill FILE`, `cut FILE`, `compare FILE OTHER`,
/// `split FILE PREFIX` or `picture FILE`. `canonical` has an option `--by-onset`, `fill` has
/// `--longest-gap HOURS` and `--moved SECONDS`, `cut` has `--from` and `--to`, one of which it
/// needs, and `picture` has `--without-code`. No FILE is standard input. `--help`, `-h`, `help` and
/// `--version`, `-V` are as `edfstore` has them.
///
/// # Errors
/// `Help` where help or the version was asked for, `Usage` where the words ask for nothing that can
/// be done, `Memory` where memory ran out.
pub fn parse(alloc: Global, words: &[String]) -> Result<RunsCommand, CommandFault> {
    let mut command = edfruns_words(alloc)?;
    match command.try_get_matches_from_mut(words) {
        Ok(matches) => command_in(alloc, &matches),
        Err(error) => Err(refuse_words(alloc, &error)?),
    }
}

/// The command that the words after the program's name ask for.
///
/// # Errors
/// The status that the program ends with, where there is no command to run: help went to `out`, or
/// why the words ask for nothing to `err`, or that there is no memory for the words.
pub fn read_command<O: Output, F: Output>(
    alloc: Global,
    words: &[String],
    out: &mut O,
    err: &mut F,
) -> Result<RunsCommand, Status> {
    match parse(alloc, words) {
        Ok(command) => Ok(command),
        Err(fault) => Err(print_fault(&fault, out, err)),
    }
}

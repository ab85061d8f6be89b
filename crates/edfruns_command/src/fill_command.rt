//! `fill`: one file of a whole recording, for viewers.

ghost use Rattle.std.specs.Prelude.{◌≡◌, ◌++◌, ◌∷◌, [], ℕ, List, Option, IfOk, IfErr};
ghost use Rattle.std.specs.Prelude.{MatchResult};
ghost use Rattle.std.specs.Io.KnownBytes.{Appends};
ghost use Rattle.edf_cli.specs.Output.{output_change};
ghost use Rattle.edf_runs.specs.Inside.Filling.{IsFilling, KeepsLimits};
ghost use Rattle.edf_runs.specs.declared.filled.FillLimits.{FillLimits};
ghost use Rattle.edf_runs.specs.Outline.{ReadsOutline};
ghost use Rattle.edf_runs.specs.Twice.{IsFilledOut};
ghost use Rattle.edfruns_command.specs.Answering.{Answers};
ghost use Rattle.edfruns_command.specs.Filling.{IsFillOut};
ghost use Rattle.edfruns_command.specs.Inside.{OpensUpTo};
ghost use Rattle.edfruns_command.specs.Listing.{OpensAgain};

use crate::arguments::{refuse_stream, twice_read_file_value, value_in};
use crate::instant_word::{length_of, text_of_instant};
use crate::outline_command::outline_of;
use crate::refusal::{refuse, refuse_canonical};
use crate::runs_command::RunsCommand;
use crate::signals::outside_lines;
use clap::{Arg, ArgMatches, Command};
use edf_cli::{
    CommandFault, Inputs, Status, concat, print_memory, print_parts, refuse_value, spelled,
};
use edf_fragment::Output;
use edf_runs::{
    FillCounts, FillFault, FillLimits, Filled, Outline, WriteFault, fill, write_filled,
};
use edf_time::{Instant, write_seconds};
use std::alloc::{AllocError, Global};

const FILL_MORE: &str = "\
Writes an EDF+D file as EDF+C, which viewers open: one file of the whole night, to
standard output. Each data record stands where its start belongs, to half a second;
where nobody recorded all samples are flat, and an annotation 'Not recorded' says how
long. The file is another recording, a copy for viewing: its recording field ends with
'filled', and a store keeps it apart from the recording itself.

A line on standard error tells of it:
  FILE records=N flat=N gaps=N closed=N moved=S
gaps are those of the recording, closed those of them that came to no place, and moved
is the furthest move, in seconds.

FILE is read twice, so it can't be standard input.";

const FILL_EXAMPLE: &str = "\
Example:
  edfruns fill night.edf > viewer.edf";

/// What usage calls the command.
const NAME: &str = "edfruns fill";

const LONGEST_GAP: &str = "longest-gap";

const MOVED: &str = "moved";

const SECOND: u64 = 1_000_000_000;

const HOUR: u64 = 3_600 * SECOND;

/// A gap of 24 hours is filled, and a data record moves by half a second, if nothing else is said.
const LIMITS: FillLimits = FillLimits {
    longest_gap: 24 * HOUR,
    moved: SECOND / 2,
};

/// Why an option's value is refused.
const NO_LENGTH: &str = "--longest-gap wants hours and --moved seconds, as 24 or 0.5";

fn option<'a>(alloc: Global, name: &'a str, value: &'a str, help: &'a str) -> Arg<'a> {
    Arg::new(alloc, name)
        .long(name)
        .value_name(value)
        .help(help)
}

/// The word and its values, as `clap` gets them.
pub(crate) fn fill_words<'a>(alloc: Global) -> Result<Command<'a>, AllocError> {
    Command::new(alloc, "fill")
        .about("Writes an EDF+D file as EDF+C, for viewers")
        .long_about(FILL_MORE)
        .after_help(FILL_EXAMPLE)
        .arg(option(
            alloc,
            LONGEST_GAP,
            "HOURS",
            "Fill gaps up to so many hours, 24 if left out",
        ))?
        .arg(option(
            alloc,
            MOVED,
            "SECONDS",
            "Move data records by so much at most, 0.5 if left out",
        ))?
        .arg(twice_read_file_value(alloc))
}

/// Returns the length of time that an option names, or another one where it is left out; `None`
/// where it names none.
fn length_in(values: &ArgMatches<'_>, name: &str, unit: u64, other: u64) -> Option<u64> {
    match values.get_str(name) {
        Some(word) => length_of(word, unit),
        None => Some(other),
    }
}

/// What its values ask for.
pub(crate) fn read_fill(
    alloc: Global,
    values: &ArgMatches<'_>,
) -> Result<RunsCommand, CommandFault> {
    let file = value_in(values, "FILE");
    if file == "-" {
        return Err(refuse_stream(alloc, fill_words(alloc), NAME)?);
    }
    let (Some(longest_gap), Some(moved)) = (
        length_in(values, LONGEST_GAP, HOUR, LIMITS.longest_gap),
        length_in(values, MOVED, SECOND, LIMITS.moved),
    ) else {
        return Err(refuse_value(alloc, fill_words(alloc)?, NAME, NO_LENGTH)?);
    };
    let file = String::from_str(alloc, file)?;
    let limits = FillLimits { longest_gap, moved };
    Ok(RunsCommand::Fill { file, limits })
}

/// Returns the line of a gap that is too long.
fn gap_line(alloc: Global, file: &str, from: u64, nanos: u64) -> Result<Vec<u8>, AllocError> {
    let (length, start) = (write_seconds(alloc, nanos)?, text_of_instant(alloc, from)?);
    let parts = [
        file.as_bytes(),
        b" has a gap of ",
        length.as_slice(),
        b" s from ",
        start.as_slice(),
        b": cut it first\n",
    ];
    concat(alloc, &parts)
}

/// Returns the line of a data record that would move too far.
fn move_line(alloc: Global, file: &str, start: Instant, nanos: u64) -> Result<Vec<u8>, AllocError> {
    let (length, start) = (write_seconds(alloc, nanos)?, spelled(alloc, start)?);
    let parts = [
        file.as_bytes(),
        b" has a data record that would move by ",
        length.as_slice(),
        b" s, at ",
        start.as_slice(),
        b"\n",
    ];
    concat(alloc, &parts)
}

/// Returns the line of a fault without a value.
fn plain_line(alloc: Global, file: &str, why: &[u8]) -> Result<Vec<u8>, AllocError> {
    concat(alloc, &[file.as_bytes(), why, b"\n"])
}

/// Returns the line why a recording has no filled file.
fn fault_line(alloc: Global, file: &str, fault: FillFault) -> Result<Vec<u8>, AllocError> {
    match fault {
        FillFault::LongGap { from, nanos } => gap_line(alloc, file, from, nanos),
        FillFault::Moved { start, nanos } => move_line(alloc, file, start, nanos),
        other => plain_line(alloc, file, plain_text(other)),
    }
}

/// Returns what that line says.
fn plain_text(fault: FillFault) -> &'static [u8] {
    match fault {
        FillFault::NoRoom => b" has no room for the word 'filled' in its recording field",
        FillFault::TooLong => b" would have more than 99999999 data records",
        FillFault::Late => b" would go on after 2184",
        _ => b" would have too many annotations in a data record",
    }
}

/// Prints why a recording has no filled file.
fn refuse_fill<F: Output>(alloc: Global, file: &str, fault: FillFault, err: &mut F) -> Status
    ensures { Answers Status.Refused result }
{
    if fault == FillFault::Memory {
        return print_memory(err, file);
    }
    match fault_line(alloc, file, fault) {
        Ok(line) => print_parts(err, &[line.as_slice()], Status::Refused),
        Err(_) => print_memory(err, file),
    }
}

/// Returns the lines of a filled file.
fn filled_lines(
    alloc: Global,
    file: &str,
    outline: &Outline,
    counts: FillCounts,
) -> Result<Vec<u8>, AllocError> {
    let FillCounts {
        records,
        flat,
        gaps,
        closed,
        moved,
    } = counts;
    let numbers = format!(in alloc;
        " records={records} flat={flat} gaps={gaps} closed={closed} moved="
    )?;
    let moved = write_seconds(alloc, moved)?;
    let parts = [file.as_bytes(), numbers.as_bytes(), moved.as_slice(), b"\n"];
    let mut text = concat(alloc, &parts)?;
    if flat > 0 {
        let lines = outside_lines(alloc, outline.identity())?;
        text.extend_from_slice(lines.as_slice())?;
    }
    Ok(text)
}

/// Prints the lines of a filled file.
fn print_filled<F: Output>(
    alloc: Global,
    file: &str,
    outline: &Outline,
    counts: FillCounts,
    err: &mut F,
) -> Status
    ensures { Answers Status.Done result }
{
    match filled_lines(alloc, file, outline, counts) {
        Ok(lines) => print_parts(err, &[lines.as_slice()], Status::Done),
        Err(_) => print_memory(err, file),
    }
}

/// Reads a file again, and writes its filled file.
fn write_again<'o, I: Inputs, O: Output>(
    alloc: Global,
    file: &str,
    outline: &'o Outline,
    filled: &'o Filled,
    inputs: &mut I,
    out: &mut O,
) -> Result<(), WriteFault>
    ensures written { IfOk result (λ none. (limits : FillLimits) (rest : Option (List ℕ)) →
        ReadsOutline (I.bytes inputs.old file.now) rest outline.now →
        IsFilling outline.now filled.now → KeepsLimits limits outline.now filled.now →
        IsFilledOut limits (I.bytes inputs.old file.now) (I.bytes inputs.old file.now)
        (O.contents out.old) (O.contents out.new)) }
    ensures stopped { IfErr result (λ fault. (text : List ℕ)
        × Appends (O.contents out.old) (O.contents out.new) text) }
    ensures opened { MatchResult result
        (λ _. I.opened inputs.new ≡ I.opened inputs.old ++ (file.now ∷ []))
        (λ _. OpensUpTo (I.opened inputs.old) (I.opened inputs.new) file.now 1) }
    ensures same { (name : List ℕ) → I.bytes inputs.new name ≡ I.bytes inputs.old name }
{
    match inputs.open(alloc, file) {
        Ok(mut reader) => write_filled(alloc, &mut reader, outline, filled, out),
        Err(_) => Err(WriteFault::Memory),
    }
}

/// Writes the filled file of a file, and then its lines.
pub(crate) fn fill_file<I: Inputs, O: Output, F: Output>(
    alloc: Global,
    file: &str,
    limits: FillLimits,
    inputs: &mut I,
    out: &mut O,
    err: &mut F,
) -> Status
    ensures written { IsFillOut (output_change O.Output out.old out.new)
        (I.bytes inputs.old file.now) limits result }
    ensures opened { OpensAgain (I.opened inputs.old) (I.opened inputs.new) file.now 2 result }
    ensures same { (name : List ℕ) → I.bytes inputs.new name ≡ I.bytes inputs.old name }
{
    let outline = match outline_of(alloc, file, inputs) {
        Ok(outline) => outline,
        Err(fault) => return refuse(alloc, file, fault, err),
    };
    let filled = match fill(alloc, &outline, limits) {
        Ok(filled) => filled,
        Err(fault) => return refuse_fill(alloc, file, fault, err),
    };
    match write_again(alloc, file, &outline, &filled, inputs, out) {
        Ok(()) => print_filled(alloc, file, &outline, filled.counts(), err),
        Err(fault) => refuse_canonical(file, fault, err),
    }
}

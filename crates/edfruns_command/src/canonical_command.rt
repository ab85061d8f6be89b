//! `canonical`: the canonical file of a whole file.

ghost use Rattle.std.specs.Prelude.{◌≡◌, ◌++◌, ℕ, List, MatchResult, replicate};
ghost use Rattle.edf_header.specs.Key.{Key};
ghost use Rattle.edf_fragment.specs.Fragment.{DataRecord};
ghost use Rattle.edf_cli.specs.Output.{output_change};
ghost use Rattle.edf_runs.specs.Outline.{IsOutline};
ghost use Rattle.edfruns_command.specs.Canonical.{IsCanonicalOut, WritesFile, StopsAgain};
ghost use Rattle.edfruns_command.specs.Canonical.{arranged, told_outside};
ghost use Rattle.edfruns_command.specs.Inside.{IsCrowdedSaid, IsTooCrowded, OpensUpTo};
ghost use Rattle.edfruns_command.specs.Listing.{OpensAgain};

use crate::arguments::{refuse_stream, twice_read_file_value, value_in};
use crate::outline_command::outline_of;
use crate::refusal::{refuse, refuse_canonical, tell_crowded, tell_outside};
use crate::runs_command::RunsCommand;
use clap::{Arg, ArgAction, ArgMatches, Command};
use edf_cli::{CommandFault, Inputs, Status, print_memory};
use edf_fragment::Output;
use edf_runs::{CrowdedFault, Outline, WriteFault, by_onset, count_outside, write_canonical};
use std::alloc::{AllocError, Global};

/// What the file holds.
const CANONICAL_MORE: &str = "\
Writes the canonical EDF+D file of a file to standard output, as 'edfstore convert'
does. Files with the same data records, annotations and identity have one canonical
file, whatever their headers leave open.

FILE is read twice, first for its times and annotations, which stay in memory, and
then for the samples of one data record at a time. So it can't be standard input.

With --by-onset each annotation is in the data record in which its onset lies. It is
for files of EDFlib, which puts the n-th annotation into the n-th data record: then a
card and its pieces have different data records, and 'edfstore take' refuses one of
them, E31. Take all files of the recording so, from the first on. An annotation whose
onset lies in no data record is in the last before it, or in the first; where there
are some, a line on standard error tells how many:
  FILE outside=N";

const CANONICAL_EXAMPLE: &str = "\
Example:
  edfruns canonical card.edf > night.edf
  edfruns canonical --by-onset card.edf > upload.edf";

/// What usage calls the command.
const NAME: &str = "edfruns canonical";

/// The word after `--`.
const BY_ONSET: &str = "by-onset";

/// The option, as `clap` gets it.
fn by_onset_option<'a>(alloc: Global) -> Arg<'a> {
    Arg::new(alloc, BY_ONSET)
        .long(BY_ONSET)
        .help("Put each annotation where its onset is")
        .action(ArgAction::SetTrue)
}

/// The word and its values, as `clap` gets them.
pub(crate) fn canonical_words<'a>(alloc: Global) -> Result<Command<'a>, AllocError> {
    Command::new(alloc, "canonical")
        .about("Writes the canonical EDF+D file to standard output")
        .long_about(CANONICAL_MORE)
        .after_help(CANONICAL_EXAMPLE)
        .arg(by_onset_option(alloc))?
        .arg(twice_read_file_value(alloc))
}

/// What its values ask for.
pub(crate) fn read_canonical(
    alloc: Global,
    values: &ArgMatches<'_>,
) -> Result<RunsCommand, CommandFault> {
    let file = value_in(values, "FILE");
    if file == "-" {
        return Err(refuse_stream(alloc, canonical_words(alloc), NAME)?);
    }
    let file = String::from_str(alloc, file)?;
    Ok(RunsCommand::Canonical {
        file,
        is_by_onset: values.get_flag(BY_ONSET),
    })
}

/// Returns the outline whose canonical file goes out: that of the file, or this by onset.
fn arrange(alloc: Global, outline: Outline, is_by_onset: bool) -> Result<Outline, CrowdedFault>
    ensures { (k : Key) (records : List DataRecord) → IsOutline k records outline →
        MatchResult result (IsOutline k (arranged is_by_onset records))
        (IsTooCrowded is_by_onset k records) }
{
    if is_by_onset {
        return by_onset(alloc, outline);
    }
    Ok(outline)
}

/// Returns of how many annotations a line tells: by onset, of those that no data record has.
fn told_outside(outline: &Outline, is_by_onset: bool) -> u64
    ensures { (k : Key) (records : List DataRecord) → IsOutline k records outline.now →
        result ≡ told_outside is_by_onset k records }
{
    if !is_by_onset {
        return 0;
    }
    count_outside(outline) as u64
}

/// Reads a file again, and writes the canonical file of its outline.
fn write_again<I: Inputs, O: Output>(
    alloc: Global,
    file: &str,
    outline: &Outline,
    inputs: &mut I,
    out: &mut O,
) -> Result<(), WriteFault>
    ensures answer { (k : Key) (ones : List DataRecord) → IsOutline k ones outline.now →
        MatchResult result
        (λ none. WritesFile (output_change O.Output out.old out.new)
        (I.bytes inputs.old file.now) k ones)
        (StopsAgain (output_change O.Output out.old out.new)
        (I.bytes inputs.old file.now) k ones) }
    ensures opened { MatchResult result
        (λ none. I.opened inputs.new ≡ I.opened inputs.old ++ replicate 1 file.now)
        (λ fault. OpensUpTo (I.opened inputs.old) (I.opened inputs.new) file.now 1) }
    ensures same { (name : List ℕ) → I.bytes inputs.new name ≡ I.bytes inputs.old name }
{
    let Ok(mut reader) = inputs.open(alloc, file) else {
        return Err(WriteFault::Memory);
    };
    match write_canonical(alloc, &mut reader, outline, out) {
        Ok(_) => Ok(()),
        Err(fault) => Err(fault),
    }
}

/// Prints why nothing is written of a file by onset.
fn refuse_crowded<F: Output>(file: &str, fault: CrowdedFault, err: &mut F) -> Status
    ensures { IsCrowdedSaid (output_change F.Output err.old err.new) file.now fault result }
{
    match fault {
        CrowdedFault::Crowded(number) => tell_crowded(err, number as u64),
        CrowdedFault::Memory => print_memory(err, file),
    }
}

/// Writes the canonical file of a file, as it is or by onset.
pub(crate) fn canonical<I: Inputs, O: Output, F: Output>(
    alloc: Global,
    file: &str,
    is_by_onset: bool,
    inputs: &mut I,
    out: &mut O,
    err: &mut F,
) -> Status
    ensures written { IsCanonicalOut (output_change O.Output out.old out.new)
        (output_change F.Output err.old err.new) (I.bytes inputs.old file.now) file.now is_by_onset
        result }
    ensures opened { OpensAgain (I.opened inputs.old) (I.opened inputs.new) file.now 2 result }
    ensures same { (name : List ℕ) → I.bytes inputs.new name ≡ I.bytes inputs.old name }
{
    let read = match outline_of(alloc, file, inputs) {
        Ok(outline) => outline,
        Err(fault) => return refuse(alloc, file, fault, err),
    };
    let outside = told_outside(&read, is_by_onset);
    let outline = match arrange(alloc, read, is_by_onset) {
        Ok(outline) => outline,
        Err(fault) => return refuse_crowded(file, fault, err),
    };
    match write_again(alloc, file, &outline, inputs, out) {
        Ok(()) => tell_outside(err, file, outside),
        Err(fault) => refuse_canonical(file, fault, err),
    }
}

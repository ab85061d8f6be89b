//! `cut`: the data records of a time.

ghost use Rattle.std.specs.Prelude.{◌≡◌, ◌⊎◌, ◌++◌, ◌∷◌, [], ℕ, List, Option, IfOk, IfErr};
ghost use Rattle.std.specs.Prelude.{MatchResult};
ghost use Rattle.std.specs.Io.KnownBytes.{Keeps};
ghost use Rattle.edf_header.specs.Key.{Key};
ghost use Rattle.edf_fragment.specs.Fragment.{DataRecord};
ghost use Rattle.edf_cli.specs.Output.{output_change};
ghost use Rattle.edf_runs.specs.CutFiles.{IsCutWritten, IsCutUnwritten};
ghost use Rattle.edf_runs.specs.Outline.{IsOutline};
ghost use Rattle.edfruns_command.specs.Answering.{Answers};
ghost use Rattle.edfruns_command.specs.Filling.{IsCutOut};
ghost use Rattle.edfruns_command.specs.Inside.{OpensUpTo};
ghost use Rattle.edfruns_command.specs.Listing.{OpensAgain};

use crate::arguments::{refuse_stream, twice_read_file_value, value_in};
use crate::instant_word::{END, instant_of};
use crate::outline_command::outline_of;
use crate::refusal::{refuse, refuse_canonical, tell_undated};
use crate::runs_command::RunsCommand;
use clap::{Arg, ArgMatches, Command};
use edf_cli::{CommandFault, Inputs, Status, print_memory, print_parts, refuse_value};
use edf_fragment::Output;
use edf_runs::{Cut, Outline, WriteFault, plan_cut, write_cut};
use edf_time::Instant;
use std::alloc::{AllocError, Global};

const CUT_MORE: &str = "\
Writes the canonical EDF+D file of those data records of a file that last, in part at
least, between two instants, to standard output. Either may be left out. Annotations
stay in their data records. A store takes the file as a piece of the recording.

FILE is read twice, so it can't be standard input.";

const CUT_EXAMPLE: &str = "\
Example:
  edfruns cut night.edf --from 2023-11-05T01:30 --to 2023-11-05T06:15:00.5 > piece.edf";

/// What usage calls the command.
const NAME: &str = "edfruns cut";

const FROM: &str = "from";

const TO: &str = "to";

/// Why the values of both options are refused.
const NO_TIME: &str = "\
--from and --to want instants such as 2023-11-05T01:30:00.25, the first before the second";

fn instant_option<'a>(alloc: Global, name: &'a str, help: &'a str) -> Arg<'a> {
    Arg::new(alloc, name)
        .long(name)
        .value_name("INSTANT")
        .help(help)
}

/// The word and its values, as `clap` gets them.
pub(crate) fn cut_words<'a>(alloc: Global) -> Result<Command<'a>, AllocError> {
    Command::new(alloc, "cut")
        .about("Writes the data records of a time")
        .long_about(CUT_MORE)
        .after_help(CUT_EXAMPLE)
        .arg(instant_option(alloc, FROM, "When the time begins"))?
        .arg(instant_option(alloc, TO, "When it ends"))?
        .arg(twice_read_file_value(alloc))
}

/// Returns both ends of the time that is asked for; `None` where it is none.
fn time_in(values: &ArgMatches<'_>) -> Option<(u64, u64)> {
    let (begin, end) = (values.get_str(FROM), values.get_str(TO));
    if begin.is_none() && end.is_none() {
        return None;
    }
    let from = match begin {
        Some(word) => instant_of(word)?.nanos(),
        None => 0,
    };
    let to = match end {
        Some(word) => instant_of(word)?.nanos(),
        None => END,
    };
    if from < to { Some((from, to)) } else { None }
}

/// What its values ask for.
pub(crate) fn read_cut(
    alloc: Global,
    values: &ArgMatches<'_>,
) -> Result<RunsCommand, CommandFault> {
    let file = value_in(values, "FILE");
    if file == "-" {
        return Err(refuse_stream(alloc, cut_words(alloc), NAME)?);
    }
    let Some((from, to)) = time_in(values) else {
        return Err(refuse_value(alloc, cut_words(alloc)?, NAME, NO_TIME)?);
    };
    let file = String::from_str(alloc, file)?;
    Ok(RunsCommand::Cut { file, from, to })
}

/// Prints that a file has no data record of the time.
fn print_none<F: Output>(file: &str, err: &mut F) -> Status
    ensures { Answers Status.Refused result }
{
    let parts = [
        file.as_bytes(),
        b" has no data record of this time\n".as_slice(),
    ];
    print_parts(err, &parts, Status::Refused)
}

/// Reads a file again, and writes the data records of a time.
fn write_again<I: Inputs, O: Output>(
    alloc: Global,
    file: &str,
    cut: &Cut<'_>,
    inputs: &mut I,
    out: &mut O,
) -> Result<(), WriteFault>
    ensures written { IfOk result (λ none. (k : Key) (ones : List DataRecord) →
        IsOutline k ones cut.now.outline.now → (rest : Option (List ℕ)) × (len : ℕ)
        × IsCutWritten (I.bytes inputs.old file.now) rest (O.contents out.old)
        (O.contents out.new) cut.now k ones len) }
    ensures stopped { IfErr result (λ fault.
        (Keeps (O.contents out.old) (O.contents out.new) × (fault ≡ WriteFault.Memory))
        ⊎ IsCutUnwritten (I.bytes inputs.old file.now) (O.contents out.old)
        (O.contents out.new) cut.now fault) }
    ensures opened { MatchResult result
        (λ _. I.opened inputs.new ≡ I.opened inputs.old ++ (file.now ∷ []))
        (λ _. OpensUpTo (I.opened inputs.old) (I.opened inputs.new) file.now 1) }
    ensures same { (name : List ℕ) → I.bytes inputs.new name ≡ I.bytes inputs.old name }
{
    let Ok(mut reader) = inputs.open(alloc, file) else {
        return Err(WriteFault::Memory);
    };
    match write_cut(alloc, &mut reader, cut, out) {
        Ok(_) => Ok(()),
        Err(fault) => Err(fault),
    }
}

/// Prints why the data records of a time are not written.
fn refuse_cut<F: Output>(
    file: &str,
    outline: &Outline,
    first: Instant,
    fault: WriteFault,
    err: &mut F,
) -> Status
    ensures status { Answers Status.Refused result }
    ensures refused { result ≡ Status.Refused → fault ≡ WriteFault.Undated }
{
    match fault {
        WriteFault::Undated => tell_undated(err, outline.run_at(first)),
        other => refuse_canonical(file, other, err),
    }
}

/// Writes the data records of a file that last between two instants.
pub(crate) fn cut<I: Inputs, O: Output, F: Output>(
    alloc: Global,
    file: &str,
    time: (u64, u64),
    inputs: &mut I,
    out: &mut O,
    err: &mut F,
) -> Status
    ensures written { IsCutOut (output_change O.Output out.old out.new)
        (I.bytes inputs.old file.now) time.0 time.1 result }
    ensures opened { OpensAgain (I.opened inputs.old) (I.opened inputs.new) file.now 2 result }
    ensures same { (name : List ℕ) → I.bytes inputs.new name ≡ I.bytes inputs.old name }
{
    let outline = match outline_of(alloc, file, inputs) {
        Ok(outline) => outline,
        Err(fault) => return refuse(alloc, file, fault, err),
    };
    let cut = match plan_cut(alloc, &outline, time.0, time.1) {
        Ok(Some(cut)) => cut,
        Ok(None) => return print_none(file, err),
        Err(_) => return print_memory(err, file),
    };
    match write_again(alloc, file, &cut, inputs, out) {
        Ok(()) => Status::Done,
        Err(fault) => refuse_cut(file, &outline, cut.first(), fault, err),
    }
}

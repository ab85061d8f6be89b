//! `list`: a line for each run.

ghost use Rattle.std.specs.Prelude.{◌≡◌, ◌⊎◌, ◌++◌, ◌∷◌, [], ℕ, List, Ok, IfOk, MatchResult};
ghost use Rattle.std.specs.Prelude.{map, replicate, string_bytes};
ghost use Rattle.edf_cli.specs.Output.{output_change, Gets, GetsPrefix, IsWritten};
ghost use Rattle.edfruns_command.specs.Inside.{OpensUpTo};
ghost use Rattle.edfruns_command.specs.Lines.{IsInstantFormat, run_lines, standard_output};
ghost use Rattle.edfruns_command.specs.Lines.{unwritten_line};
ghost use Rattle.edfruns_command.specs.Listed.{CutsLines, IsFileListed, IsListOut, OpensEach};
ghost use Rattle.edfruns_command.specs.Listed.{are_several, file_label};
ghost use Rattle.edfruns_command.specs.Listing.{HasRuns, HasFault};

use crate::arguments::required_value;
use crate::lines::list_text;
use crate::outline_command::outline_of;
use crate::refusal::{STANDARD_OUTPUT, print_unwritten, refuse};
use crate::runs_command::RunsCommand;
use clap::{Arg, ArgAction, ArgMatches, Command};
use edf_cli::{CommandFault, Inputs, Status, concat, print_memory, refuse_value, worse};
use edf_fragment::{FragmentFault, Output, send};
use edf_runs::{Listing, list_outline};
use std::alloc::{AllocError, Global};

/// What the line of a run says.
const LIST_MORE: &str = "\
Lists the runs of a file in time order, a line each: its number, how many data
records it has, the start of the first, how many seconds it lasts, where another
run follows how many seconds are missing before that, and the codes of the patient
and the investigation. Where there are several files, each line begins with its
file's name.";

const LIST_EXAMPLES: &str = "\
Examples:
  edfruns list night.edf
  1 records=3 first=2002-03-02T23:59:50 seconds=3 gap=7.5 patient=P7 investigation=N1
  2 records=2 first=2002-03-03T00:00:00.5 seconds=2 patient=P7 investigation=N1
  edfruns list *.edf";

/// What usage calls the command.
const NAME: &str = "edfruns list";

/// Why `-` is refused.
const NO_STREAM: &str = "FILE can't be standard input: write it to a file first";

/// The files, each of which is read once.
fn files_value<'a>(alloc: Global) -> Arg<'a> {
    required_value(alloc, "FILE", "Files in EDF+C or EDF+D")
        .action(ArgAction::Append)
        .num_args(1..)
}

/// The word and its values, as `clap` gets them.
pub(crate) fn list_words<'a>(alloc: Global) -> Result<Command<'a>, AllocError> {
    Command::new(alloc, "list")
        .about("Lists the runs of files")
        .long_about(LIST_MORE)
        .after_help(LIST_EXAMPLES)
        .arg(files_value(alloc))
}

/// The files that were given.
fn files_in(alloc: Global, values: &ArgMatches<'_>) -> Result<Vec<String>, AllocError> {
    let mut files = Vec::new(alloc);
    if let Some(names) = values.get_strs("FILE") {
        for name in names {
            files.push(String::from_str(alloc, name)?)?;
        }
    }
    Ok(files)
}

/// What its values ask for.
pub(crate) fn read_list(
    alloc: Global,
    values: &ArgMatches<'_>,
) -> Result<RunsCommand, CommandFault> {
    let files = files_in(alloc, values)?;
    if files.iter().any(|file| file.as_str() == "-") {
        return Err(refuse_value(alloc, list_words(alloc)?, NAME, NO_STREAM)?);
    }
    Ok(RunsCommand::List { files })
}

/// The runs of a file, which is read once.
pub(crate) fn listing_of<I: Inputs>(
    alloc: Global,
    file: &str,
    inputs: &mut I,
) -> Result<Listing, FragmentFault>
    ensures answer { MatchResult result (HasRuns (I.bytes inputs.old file.now))
        (λ fault. HasFault (I.bytes inputs.old file.now) fault
        ⊎ (fault ≡ FragmentFault.Memory)) }
    ensures opened { MatchResult result
        (λ _. I.opened inputs.new ≡ I.opened inputs.old ++ replicate 1 file.now)
        (λ _. OpensUpTo (I.opened inputs.old) (I.opened inputs.new) file.now 1) }
    ensures same { (name : List ℕ) → I.bytes inputs.new name ≡ I.bytes inputs.old name }
{
    let outline = outline_of(alloc, file, inputs)?;
    match list_outline(alloc, outline) {
        Ok(listing) => Ok(listing),
        Err(_) => Err(FragmentFault::Memory),
    }
}

/// Whether lines have their file's name.
fn are_several(files: &[String]) -> bool
    ensures { result ≡ are_several (map string_bytes files.now) }
{
    files.len() > 1
}

/// What stands before each line of a file, where there are several.
fn file_label(alloc: Global, file: &str, several: bool) -> Result<Vec<u8>, AllocError>
    ensures { IfOk result (λ r. r.items ≡ file_label several file.now) }
{
    if several {
        concat(alloc, &[file.as_bytes(), b" "])
    } else {
        Ok(Vec::new(alloc))
    }
}

/// The lines of a file.
fn text_of(
    alloc: Global,
    file: &str,
    several: bool,
    listing: &Listing,
) -> Result<Vec<u8>, AllocError>
    ensures { IfOk result (λ r. (spell : ℕ → List ℕ) → IsInstantFormat spell → r.items ≡ run_lines
        spell listing.now.identity (file_label several file.now) 1 listing.now.runs.items) }
{
    let label = file_label(alloc, file, several)?;
    list_text(alloc, label.as_slice(), listing)
}

/// Writes lines.
///
/// # Errors
/// Where they could not be written whole: the status, once a line says so.
fn send_lines<O: Output, F: Output>(text: &[u8], out: &mut O, err: &mut F) -> Result<Status, Status>
    ensures { let o = output_change O.Output out.old out.new in
        let e = output_change F.Output err.old err.new in MatchResult result
        (λ status. Gets o text.now × Gets e [] × (status ≡ Status.Done))
        (λ status. GetsPrefix o text.now
        × IsWritten e (unwritten_line standard_output) Status.Trouble status) }
{
    if send(out, text) {
        return Ok(Status::Done);
    }
    Err(print_unwritten(err, STANDARD_OUTPUT, Status::Trouble))
}

/// Writes the lines of a file.
///
/// # Errors
/// Where they could not be written whole: the status, once a line says so.
fn list_file<I: Inputs, O: Output, F: Output>(
    alloc: Global,
    file: &str,
    several: bool,
    inputs: &mut I,
    out: &mut O,
    err: &mut F,
) -> Result<Status, Status>
    ensures listed { let o = output_change O.Output out.old out.new in
        let e = output_change F.Output err.old err.new in
        let bytes = I.bytes inputs.old file.now in
        let label = file_label several file.now in
        MatchResult result (IsFileListed o e bytes label file.now)
        (CutsLines o e bytes label) }
    ensures opened { OpensUpTo (I.opened inputs.old) (I.opened inputs.new) file.now 1 }
    ensures done { result ≡ Ok Status.Done →
        I.opened inputs.new ≡ I.opened inputs.old ++ (file.now ∷ []) }
    ensures same { (name : List ℕ) → I.bytes inputs.new name ≡ I.bytes inputs.old name }
{
    let listing = match listing_of(alloc, file, inputs) {
        Ok(listing) => listing,
        Err(fault) => return Ok(refuse(alloc, file, fault, err)),
    };
    match text_of(alloc, file, several, &listing) {
        Ok(text) => send_lines(text.as_slice(), out, err),
        Err(_) => Ok(print_memory(err, file)),
    }
}

/// Writes the lines of each file in the order of the words, also after one that is refused. It ends
/// where lines could not be written whole, and says so.
pub(crate) fn list<I: Inputs, O: Output, F: Output>(
    alloc: Global,
    files: &[String],
    inputs: &mut I,
    out: &mut O,
    err: &mut F,
) -> Status
    ensures listed { IsListOut (I.bytes inputs.old) (output_change O.Output out.old out.new)
        (output_change F.Output err.old err.new) (map string_bytes files.now) result }
    ensures opened { OpensEach (I.opened inputs.old) (I.opened inputs.new)
        (map string_bytes files.now) result }
    ensures same { (name : List ℕ) → I.bytes inputs.new name ≡ I.bytes inputs.old name }
{
    let several = are_several(files);
    let mut status = Status::Done;
    for file in files {
        match list_file(alloc, file.as_str(), several, inputs, out, err) {
            Ok(one) => status = worse(status, one),
            Err(cut) => return cut,
        }
    }
    status
}

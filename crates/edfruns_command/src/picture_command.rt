//! `picture`: a file as an SVG.

ghost use Rattle.std.specs.Prelude.{◌≡◌, ◌↔◌, ◌++◌, ◌≤◌, ℕ, List, MatchResult, replicate};
ghost use Rattle.std.specs.Prelude.{IsTrue, string_bytes};
ghost use Rattle.edf_fragment.specs.Fragment.{DataRecord};
ghost use Rattle.edf_fragment.specs.Reading.{initial_progress};
ghost use Rattle.edf_fragment.specs.Whole.{FailsAfterRecords, ReadsFragmentFault};
ghost use Rattle.edf_fragment.specs.Inside.Steps.{ReadsRecords};
ghost use Rattle.edf_cli.specs.Output.{output_change};
ghost use Rattle.edf_runs.specs.Again.{fault_again};
ghost use Rattle.edf_runs.specs.ByOnset.{annotations_of};
ghost use Rattle.edf_runs.specs.Read.{ReadsRuns};
ghost use Rattle.edf_runs.specs.Runs.{AreListed};
ghost use Rattle.edfruns_command.specs.Inside.{OpensUpTo};
ghost use Rattle.edfruns_command.specs.Lines.{unwritten_line, standard_output};
ghost use Rattle.edfruns_command.specs.Listing.{OpensAgain};
ghost use Rattle.edfruns_command.specs.Picturing.{AreNoted, IsPictured, ReadsNotes};
ghost use Rattle.edfruns_command.specs.Picturing.{IsPictureOf, SendsPicture, StopsAgain};

use crate::arguments::{refuse_stream, twice_read_file_value, value_in};
use crate::list_command::listing_of;
use crate::refusal::{STANDARD_OUTPUT, print_reread, print_unwritten, refuse};
use crate::runs_command::RunsCommand;
use crate::sight::{Sight, times_of, title_of};
use crate::signals::signals_in;
use clap::{Arg, ArgAction, ArgMatches, Command};
use edf_cli::{CommandFault, Inputs, Status};
use edf_field::MOST_DURATION;
use edf_fragment::{FragmentFault, Input, OpenFragment, Output, send};
use edf_header::Identity;
use edf_header::laws::header_is_layout;
use edf_picture::{Bands, Night, draw};
use edf_runs::{Listing, Run, WriteFault, add_record};
use std::alloc::{AllocError, Global};

/// What the picture shows.
const PICTURE_MORE: &str = "\
Writes a picture of a file to standard output, as one SVG that a browser opens.
Over one time axis: what is recorded, the stages of sleep where annotations name
some, a lane for each of the most frequent other texts, and for each of the
first 16 signals the least and the greatest value.
A file that is refused leaves standard output empty.

FILE is read twice, first for its times and then for its annotations and its
samples, so it can't be standard input.

With --without-code the patient code is left out, and the title says so. The
investigation code, the times and the texts of annotations stay as they are.";

const PICTURE_EXAMPLES: &str = "\
Examples:
  edfruns picture night.edf > night.svg
  edfruns picture --without-code night.edf > night.svg";

/// What usage calls the command.
const NAME: &str = "edfruns picture";

/// The option for a picture that others are to see.
const WITHOUT_CODE: &str = "without-code";

fn without_code_option<'a>(alloc: Global) -> Arg<'a> {
    Arg::new(alloc, WITHOUT_CODE)
        .long(WITHOUT_CODE)
        .help("Leave the patient code out of the title")
        .action(ArgAction::SetTrue)
}

/// The word and its values, as `clap` gets them.
pub(crate) fn picture_words<'a>(alloc: Global) -> Result<Command<'a>, AllocError> {
    Command::new(alloc, "picture")
        .about("Writes a picture of a file to standard output, as SVG")
        .long_about(PICTURE_MORE)
        .after_help(PICTURE_EXAMPLES)
        .arg(without_code_option(alloc))?
        .arg(twice_read_file_value(alloc))
}

/// What its values ask for.
pub(crate) fn read_picture(
    alloc: Global,
    values: &ArgMatches<'_>,
) -> Result<RunsCommand, CommandFault> {
    let file = value_in(values, "FILE");
    if file == "-" {
        return Err(refuse_stream(alloc, picture_words(alloc), NAME)?);
    }
    let file = String::from_str(alloc, file)?;
    Ok(RunsCommand::Picture {
        file,
        has_code: !values.get_flag(WITHOUT_CODE),
    })
}

/// What a picture shows of a file.
#[derive(Drop)]
struct SeenFile {
    identity: Identity,
    sight: Sight,
}

/// Reads the data records that follow a header that was just read.
fn see_records<R: Input>(
    alloc: Global,
    fragment: &mut OpenFragment,
    input: &mut R,
    duration: u64,
    bands: Bands,
) -> Result<Sight, FragmentFault>
    requires first { fragment.old.progress ≡ initial_progress }
    requires duration { duration ≤ MOST_DURATION }
    ensures header { fragment.new.header ≡ fragment.old.header }
    ensures answer { MatchResult result
        (λ sight. (records : List DataRecord) × ReadsRecords fragment.old.header
        (R.remaining input.old) (R.remaining input.new) records
        × AreListed duration records sight.runs.items
        × AreNoted (annotations_of records) sight.notes.items)
        (FailsAfterRecords fragment.old.header (R.remaining input.old) (R.remaining input.new)) }
{
    header_is_layout(fragment.header());
    let mut sight = Sight::new(alloc, bands);
    'records: loop {
        match fragment.next(input)? {
            Some(record) => {
                if sight.add(&record, duration).is_err() {
                    return Err(FragmentFault::Memory);
                }
            }
            None => return Ok(sight),
        }
    }
}

/// Reads a whole file.
fn see_file<R: Input>(alloc: Global, input: &mut R, bands: Bands) -> Result<SeenFile, FragmentFault>
    ensures { MatchResult result
        (λ seen. ReadsRuns (R.remaining input.old) (R.remaining input.new) (record {
          identity = seen.identity;
          runs = seen.sight.runs;
        }) × ReadsNotes (R.remaining input.old) (R.remaining input.new) seen.sight.notes.items)
        (ReadsFragmentFault (R.remaining input.old) (R.remaining input.new)) }
{
    let mut fragment = OpenFragment::read(alloc, input)?;
    let duration = fragment.header().identity().duration();
    let sight = see_records(alloc, &mut fragment, input, duration, bands)?;
    Ok(SeenFile {
        identity: fragment.into_header().into_identity(),
        sight,
    })
}

fn are_same(runs: &[Run], others: &[Run]) -> bool
    ensures { IsTrue result ↔ (runs.now ≡ others.now) }
{
    runs == others
}

/// Why a second reading stops, by the fault that it met: the first had none, so that one of form
/// means that the file changed.
fn fault_of(fault: FragmentFault) -> WriteFault
    ensures { result ≡ fault_again fault }
{
    match fault {
        FragmentFault::Read => WriteFault::Read,
        FragmentFault::Memory => WriteFault::Memory,
        _ => WriteFault::Changed,
    }
}

/// Reads a file again whose runs were listed.
fn see_again<R: Input>(
    alloc: Global,
    input: &mut R,
    listing: &Listing,
    bands: Bands,
) -> Result<Sight, WriteFault>
    ensures { MatchResult result
        (λ sight. ReadsRuns (R.remaining input.old) (R.remaining input.new) listing.now
        × ReadsNotes (R.remaining input.old) (R.remaining input.new) sight.notes.items)
        (StopsAgain (R.remaining input.old) listing.now) }
{
    let seen = match see_file(alloc, input, bands) {
        Ok(seen) => seen,
        Err(fault) => return Err(fault_of(fault)),
    };
    if !seen.identity.same(&listing.identity) {
        return Err(WriteFault::Changed);
    }
    if are_same(&seen.sight.runs, &listing.runs) {
        Ok(seen.sight)
    } else {
        Err(WriteFault::Changed)
    }
}

/// The picture of a file whose runs were listed, which is read again.
fn draw_listed<R: Input>(
    alloc: Global,
    input: &mut R,
    has_code: bool,
    listing: &Listing,
) -> Result<String, WriteFault>
    ensures { MatchResult result
        (λ picture. ReadsRuns (R.remaining input.old) (R.remaining input.new) listing.now
        × IsPictureOf listing.now.identity has_code listing.now.runs.items (string_bytes picture))
        (StopsAgain (R.remaining input.old) listing.now) }
{
    let identity = &listing.identity;
    let duration = identity.duration();
    let Ok(bytes) = identity.to_bytes(alloc) else {
        return Err(WriteFault::Memory);
    };
    let Ok(signals) = signals_in(alloc, &bytes) else {
        return Err(WriteFault::Memory);
    };
    let Ok(times) = times_of(alloc, duration, &listing.runs) else {
        return Err(WriteFault::Memory);
    };
    let Ok(bands) = Bands::new(alloc, &times, duration, &signals) else {
        return Err(WriteFault::Memory);
    };
    let sight = match see_again(alloc, input, listing, bands) {
        Ok(sight) => sight,
        Err(fault) => return Err(fault),
    };
    let night = Night {
        duration,
        runs: &times,
        notes: &sight.notes,
        signals: &signals,
    };
    match draw(alloc, &title_of(identity, has_code), &night, &sight.bands) {
        Ok(picture) => Ok(picture),
        Err(_) => Err(WriteFault::Memory),
    }
}

/// The same of the file of this name.
fn draw_file<I: Inputs>(
    alloc: Global,
    file: &str,
    has_code: bool,
    listing: &Listing,
    inputs: &mut I,
) -> Result<String, WriteFault>
    ensures answer { MatchResult result
        (λ picture. IsPictureOf listing.now.identity has_code listing.now.runs.items
        (string_bytes picture))
        (StopsAgain (I.bytes inputs.old file.now) listing.now) }
    ensures opened { MatchResult result
        (λ _. I.opened inputs.new ≡ I.opened inputs.old ++ replicate 1 file.now)
        (λ _. OpensUpTo (I.opened inputs.old) (I.opened inputs.new) file.now 1) }
    ensures same { (name : List ℕ) → I.bytes inputs.new name ≡ I.bytes inputs.old name }
{
    match inputs.open(alloc, file) {
        Ok(mut reader) => draw_listed(alloc, &mut reader, has_code, listing),
        Err(_) => Err(WriteFault::Memory),
    }
}

/// Writes a picture, or prints that it could not be written whole.
fn send_picture<O: Output, F: Output>(picture: &str, out: &mut O, err: &mut F) -> Status
    ensures { SendsPicture (output_change O.Output out.old out.new)
        (output_change F.Output err.old err.new)
        picture.now (unwritten_line standard_output) result }
{
    if send(out, picture.as_bytes()) {
        Status::Done
    } else {
        print_unwritten(err, STANDARD_OUTPUT, Status::Trouble)
    }
}

/// Writes a picture of a file, with the code of the patient or without it. Nothing goes to `out`
/// where the file is refused.
pub(crate) fn picture<I: Inputs, O: Output, F: Output>(
    alloc: Global,
    file: &str,
    has_code: bool,
    inputs: &mut I,
    out: &mut O,
    err: &mut F,
) -> Status
    ensures pictured { IsPictured (output_change O.Output out.old out.new)
        (output_change F.Output err.old err.new)
        (I.bytes inputs.old file.now) file.now has_code result }
    ensures opened { OpensAgain (I.opened inputs.old) (I.opened inputs.new) file.now 2 result }
    ensures same { (name : List ℕ) → I.bytes inputs.new name ≡ I.bytes inputs.old name }
{
    let listing = match listing_of(alloc, file, inputs) {
        Ok(listing) => listing,
        Err(fault) => return refuse(alloc, file, fault, err),
    };
    match draw_file(alloc, file, has_code, &listing, inputs) {
        Ok(picture) => send_picture(picture.as_str(), out, err),
        Err(fault) => print_reread(err, file, fault, Status::Trouble),
    }
}

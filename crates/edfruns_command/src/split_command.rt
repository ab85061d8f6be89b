//! `split`: a file for each run.

ghost use Rattle.std.specs.Prelude.{◌≡◌, ◌≤◌, ℕ, List, All, Contains, IfOk, MatchOption};
ghost use Rattle.std.specs.Prelude.{length, map, string_bytes, take};
ghost use Rattle.edf_header.specs.Key.{MayStart};
ghost use Rattle.edf_cli.specs.Output.{output_change};
ghost use Rattle.edf_runs.specs.declared.run.Run.{Run as ListedRun};
ghost use Rattle.edf_cli.specs.Making.{making};
ghost use Rattle.edf_cli.specs.There.{IsVacant, MayBeThere};
ghost use Rattle.edfruns_command.specs.Listing.{OpensAgain};
ghost use Rattle.edfruns_command.specs.Naming.{asked_names};
ghost use Rattle.edfruns_command.specs.Splitting.{IsSplit, Says};

use crate::arguments::{refuse_stream, required_value, twice_read_file_value, value_in};
use crate::list_command::listing_of;
use crate::making::{NamedRuns, Stop, make_files};
use crate::naming::{push_first_names, run_names};
use crate::refusal::{print_reread, print_unwritten, refuse, tell_undated};
use crate::runs_command::RunsCommand;
use clap::{ArgMatches, Command};
use edf_cli::{CommandFault, Inputs, NewFiles, Status, print_memory, print_name_taken};
use edf_fragment::Output;
use edf_runs::Listing;
use std::alloc::{AllocError, Global};

/// Which files are made, and what is left where one can't be.
const SPLIT_MORE: &str = "\
Writes each run of a file to a new EDF+C file: PREFIX-1.edf, PREFIX-2.edf and so
on, or PREFIX-01.edf where there are 10 or more. All numbers have as many digits.

No file that is there is written over: where one is, nothing is written.

A line tells that a file is whole, and what it has, as 'edfruns list' does, with
how many annotations, and how many of these have an onset outside of the run:
  PREFIX-1.edf 1 records=K first=I seconds=S gap=S annotations=K outside=M
    patient=P investigation=N

Where it stops before the last file, those that are whole stay. Begin again with
another PREFIX. A file that has no line, NAME.part, may be removed.

FILE is read twice, first for its runs and then for their data records, so it
can't be standard input.

To have each annotation in the file of the run in which its onset lies, put them
there first, by 'edfruns canonical --by-onset', and split the file that it writes.";

const SPLIT_EXAMPLE: &str = "\
Example:
  edfruns split night.edf night
  night-1.edf 1 records=3 first=2002-03-02T23:59:50 seconds=3 gap=7.5 annotations=2 outside=1
    patient=P7 investigation=N1
  night-2.edf 2 records=2 first=2002-03-03T00:00:00.5 seconds=2 annotations=0 outside=0
    patient=P7 investigation=N1";

/// What usage calls the command.
const NAME: &str = "edfruns split";

/// The word and its values, as `clap` gets them.
pub(crate) fn split_words<'a>(alloc: Global) -> Result<Command<'a>, AllocError> {
    Command::new(alloc, "split")
        .about("Writes each run to an EDF+C file of its own")
        .long_about(SPLIT_MORE)
        .after_help(SPLIT_EXAMPLE)
        .arg(twice_read_file_value(alloc))?
        .arg(required_value(
            alloc,
            "PREFIX",
            "How the names of the new files begin, before -1.edf",
        ))
}

/// What its values ask for.
pub(crate) fn read_split(
    alloc: Global,
    values: &ArgMatches<'_>,
) -> Result<RunsCommand, CommandFault> {
    let file = value_in(values, "FILE");
    if file == "-" {
        return Err(refuse_stream(alloc, split_words(alloc), NAME)?);
    }
    let file = String::from_str(alloc, file)?;
    let prefix = String::from_str(alloc, value_in(values, "PREFIX"))?;
    Ok(RunsCommand::Split { file, prefix })
}

/// The names that no file may have: those of the runs, and those of the first file of an earlier
/// split, with 1 to 8 digits. Of an earlier split whose first file is gone nothing is asked.
fn asked_names(alloc: Global, prefix: &str, count: usize) -> Result<Vec<String>, AllocError>
    ensures { IfOk result (λ r. map string_bytes r.items ≡ asked_names prefix.now count) }
{
    let mut asked = run_names(alloc, prefix, count)?;
    push_first_names(alloc, prefix, &mut asked)?;
    Ok(asked)
}

/// So many of these names, from the first.
fn front_of(names: &[String], count: usize) -> &[String]
    requires { count ≤ length names.now }
    ensures { result.now ≡ take count names.now }
{
    &names[..count]
}

/// The number of the first run whose start no header can name, from 1, if there is one.
fn undated_run(listing: &Listing) -> Option<usize>
    ensures { let Dated = All (λ (run : ListedRun). MayStart listing.now.identity run.first)
        listing.now.runs.items in MatchOption result Dated (λ _. ¬ Dated) }
{
    for (at, run) in listing.runs.iter().enumerate() {
        if !listing.identity.may_start(run.first()) {
            return Some(at + 1);
        }
    }
    None
}

/// The first of these names that something has already, if there is one.
fn taken_name<'a, P: NewFiles>(outputs: &mut P, names: &'a [String]) -> Option<&'a str>
    ensures answer { MatchOption result
        (All (IsVacant (P.there outputs.old)) (map string_bytes names.now))
        (λ name. Contains (map string_bytes names.now) name.now
        × MayBeThere (P.there outputs.old) name.now) }
    ensures there { (name : List ℕ) → P.there outputs.new name ≡ P.there outputs.old name }
    ensures made { P.made outputs.new ≡ P.made outputs.old }
    ensures failed { P.failed outputs.new ≡ P.failed outputs.old }
    ensures known { P.known outputs.new ≡ P.known outputs.old }
{
    for name in names {
        if outputs.is_there(name.as_str()) {
            return Some(name.as_str());
        }
    }
    None
}

/// Prints why not all runs have their files and lines. Printing takes no memory.
fn print_stop<F: Output>(err: &mut F, file: &str, stop: Stop<'_>) -> Status
    ensures status { result ≡ Status.Trouble }
    ensures said { Says (output_change F.Output err.old err.new) }
{
    match stop {
        Stop::Output(name) => print_unwritten(err, name, Status::Trouble),
        Stop::Reading(fault) => print_reread(err, file, fault, Status::Trouble),
    }
}

/// Writes each run of a file to an EDF+C file of its own, one after another. No file that is there
/// is written over. A run whose start no header can name is told before a name that is taken.
pub(crate) fn split<I: Inputs, P: NewFiles, O: Output, F: Output>(
    alloc: Global,
    file: &str,
    prefix: &str,
    inputs: &mut I,
    outputs: &mut P,
    out: &mut O,
    err: &mut F,
) -> Status
    ensures split { IsSplit (making P.NewFiles outputs.old outputs.new)
        (output_change F.Output err.old err.new) (I.bytes inputs.old file.now) prefix.now result }
    ensures opened { OpensAgain (I.opened inputs.old) (I.opened inputs.new) file.now 2 result }
    ensures same { (name : List ℕ) → I.bytes inputs.new name ≡ I.bytes inputs.old name }
{
    let listing = match listing_of(alloc, file, inputs) {
        Ok(listing) => listing,
        Err(fault) => return refuse(alloc, file, fault, err),
    };
    let count = listing.runs.as_slice().len();
    let Ok(asked) = asked_names(alloc, prefix, count) else {
        return print_memory(err, file);
    };
    if let Some(number) = undated_run(&listing) {
        return tell_undated(err, number);
    }
    if let Some(name) = taken_name(outputs, &asked) {
        return print_name_taken(err, name);
    }
    let names = front_of(&asked, count);
    let named = NamedRuns {
        listing: &listing,
        names,
    };
    match make_files(alloc, file, &named, inputs, outputs, out) {
        Ok(()) => Status::Done,
        Err(stop) => print_stop(err, file, stop),
    }
}

//! The files of runs, made one after another in a second reading. The line of each is written once
//! it is whole.

ghost use Rattle.std.specs.Prelude.{◌≡◌, ◌<◌, ◌++◌, ◌∷◌, [], ℕ, List, All, IfOk, MatchResult};
ghost use Rattle.std.specs.Prelude.{length, map, replicate, string_bytes};
ghost use Rattle.edf_header.specs.Key.{MayStart};
ghost use Rattle.edf_fragment.specs.Reading.{initial_progress};
ghost use Rattle.edf_runs.specs.declared.run.Run.{Run as ListedRun};
ghost use Rattle.edf_cli.specs.Made.{MadeFile, HasPart, begun};
ghost use Rattle.edf_cli.specs.Making.{making};
ghost use Rattle.edfruns_command.specs.Inside.{OpensUpTo};
ghost use Rattle.edfruns_command.specs.InsideSplit.{IsAtEnd, LacksFile, MakesEach, MakesFile};
ghost use Rattle.edfruns_command.specs.InsideSplit.{MakesRuns, StopsMaking};
ghost use Rattle.edfruns_command.specs.Splitting.{HasFirst};

use crate::lines::{line_end, line_front, run_at};
use crate::refusal::STANDARD_OUTPUT;
use edf_cli::{Inputs, NewFiles, concat};
use edf_fragment::{FragmentFault, Input, OpenFragment, Output, Remark, send};
use edf_runs::{Listing, Run, WriteFault, Written, reopen_listed, write_run};
use std::alloc::{AllocError, Global};

/// The runs of a file, and the names of their files.
#[derive(Drop)]
pub(crate) struct NamedRuns<'n> {
    pub(crate) listing: &'n Listing,
    pub(crate) names: &'n [String],
}

/// Why not all runs have their files and lines.
#[derive(Clone, Copy, Debug, PartialEq, Eq, Drop)]
pub(crate) enum Stop<'n> {
    /// The file could not be read a second time.
    Reading(WriteFault),
    /// The file of this name, or standard output, could not be written.
    Output(&'n str),
}

/// Returns the line of the file of the run at a place, from 0: its name, the run as `list` has it,
/// how many annotations it has, and how many of these have an onset outside of the run.
fn line_of(
    alloc: Global,
    named: &NamedRuns<'_>,
    at: usize,
    name: &str,
    written: &Written,
) -> Result<Vec<u8>, AllocError>
    requires within { at < length named.now.listing.now.runs.items }
{
    let identity = &named.listing.identity;
    let runs = named.listing.runs.as_slice();
    let next = run_at(runs, at + 1);
    let front = line_front(alloc, identity.duration(), at + 1, &runs[at], next)?;
    let (annotations, outside) = (written.annotations, written.outside);
    let counts = format!(in alloc; " annotations={annotations} outside={outside}")?;
    let end = line_end(alloc, identity)?;
    let parts = [
        name.as_bytes(),
        b" ",
        front.as_slice(),
        counts.as_bytes(),
        end.as_slice(),
    ];
    concat(alloc, &parts)
}

/// Tells a person of the first file that has annotations outside of its run. Returns whether one
/// was told of so far.
fn remark_outside<O: Output>(out: &mut O, name: &str, written: &Written, is_told: bool) -> bool {
    if is_told || written.outside == 0 {
        return is_told;
    }
    out.remark(name, Remark::Outside);
    true
}

/// Returns why the file of this name is not made, by the fault in its run's writing.
fn stop_of(fault: WriteFault, name: &str) -> Stop<'_> {
    match fault {
        WriteFault::Write => Stop::Output(name),
        _ => Stop::Reading(fault),
    }
}

/// Takes back the writer of the file that was begun last, and removes that, if it can be.
fn drop_half<P: NewFiles>(outputs: &mut P, writer: P::Writer)
    ensures half { (files : List MadeFile) (name : List ℕ) →
        P.made outputs.old ≡ files ++ (begun name ∷ []) →
        HasPart files name (P.made outputs.new) }
    ensures known { P.known outputs.new ≡ P.known outputs.old }
{
    outputs.abandon(writer);
    let last = outputs.count().saturating_sub(1);
    let _is_gone = outputs.remove(last);
}

/// Makes the file of the run whose data records come next.
fn make_file<'n, R: Input, P: NewFiles>(
    alloc: Global,
    fragment: &mut OpenFragment,
    reader: &mut R,
    run: &Run,
    name: &'n str,
    outputs: &mut P,
) -> Result<Written, Stop<'n>>
    requires dated { MayStart fragment.old.header.key run.now.first }
    ensures header { fragment.new.header ≡ fragment.old.header }
    ensures known { P.known outputs.new ≡ P.known outputs.old }
    ensures answer { MatchResult result
        (λ _. MakesFile (making P.NewFiles outputs.old outputs.new) name.now fragment.old.header
        fragment.old.progress fragment.new.progress (R.remaining reader.old)
        (R.remaining reader.new) run.now)
        (λ _. LacksFile (making P.NewFiles outputs.old outputs.new) name.now) }
{
    let Ok(mut writer) = outputs.create(alloc, name) else {
        return Err(Stop::Output(name));
    };
    match write_run(alloc, fragment, reader, run, &mut writer) {
        Ok(written) => match outputs.finish(writer) {
            Ok(_) => Ok(written),
            Err(_) => Err(Stop::Output(name)),
        },
        Err(fault) => {
            drop_half(outputs, writer);
            Err(stop_of(fault, name))
        }
    }
}

/// Writes the line of a file that is whole.
fn write_line<'n, O: Output>(
    alloc: Global,
    named: &NamedRuns<'n>,
    at: usize,
    name: &str,
    written: &Written,
    out: &mut O,
) -> Result<(), Stop<'n>>
    requires within { at < length named.now.listing.now.runs.items }
{
    let Ok(line) = line_of(alloc, named, at, name, written) else {
        return Err(Stop::Reading(WriteFault::Memory));
    };
    if send(out, line.as_slice()) {
        Ok(())
    } else {
        Err(Stop::Output(STANDARD_OUTPUT))
    }
}

/// Makes the files of all runs, whose data records come next, and writes the line of each.
fn make_each<'n, R: Input, P: NewFiles, O: Output>(
    alloc: Global,
    fragment: &mut OpenFragment,
    reader: &mut R,
    named: &NamedRuns<'n>,
    outputs: &mut P,
    out: &mut O,
) -> Result<(), Stop<'n>>
    requires first { fragment.old.progress ≡ initial_progress }
    requires names { length named.now.names.now ≡ length named.now.listing.now.runs.items }
    requires dated { All (λ (run : ListedRun). MayStart fragment.old.header.key run.first)
        named.now.listing.now.runs.items }
    ensures header { fragment.new.header ≡ fragment.old.header }
    ensures answer { MatchResult result
        (λ _. MakesEach (making P.NewFiles outputs.old outputs.new)
        (map string_bytes named.now.names.now) fragment.old.header fragment.new.progress
        (R.remaining reader.old) (R.remaining reader.new) named.now.listing.now.runs.items)
        (λ _. HasFirst (making P.NewFiles outputs.old outputs.new)
        (map string_bytes named.now.names.now) fragment.old.header (R.remaining reader.old)
        named.now.listing.now.runs.items) }
{
    let names = named.names;
    let mut is_told = false;
    for (at, run) in named.listing.runs.iter().enumerate() {
        let name = names[at].as_str();
        let written = make_file(alloc, fragment, reader, run, name, outputs)?;
        write_line(alloc, named, at, name, &written, out)?;
        is_told = remark_outside(out, name, &written, is_told);
    }
    Ok(())
}

/// Reads on after the last run, where nothing may follow.
fn expect_end<R: Input>(fragment: &mut OpenFragment, input: &mut R) -> Result<(), WriteFault>
    ensures { IfOk result (λ _. IsAtEnd fragment.old.header fragment.old.progress
        fragment.new.progress (R.remaining input.old) (R.remaining input.new)) }
{
    match fragment.next(input) {
        Ok(None) => Ok(()),
        Ok(Some(_)) => Err(WriteFault::Changed),
        Err(FragmentFault::Read) => Err(WriteFault::Read),
        Err(FragmentFault::Memory) => Err(WriteFault::Memory),
        Err(_) => Err(WriteFault::Changed),
    }
}

/// Reads a file again, makes the file of each of its runs, and writes their lines.
pub(crate) fn make_files<'n, I: Inputs, P: NewFiles, O: Output>(
    alloc: Global,
    file: &str,
    named: &NamedRuns<'n>,
    inputs: &mut I,
    outputs: &mut P,
    out: &mut O,
) -> Result<(), Stop<'n>>
    requires names { length named.now.names.now ≡ length named.now.listing.now.runs.items }
    requires dated { All (λ (run : ListedRun). MayStart named.now.listing.now.identity run.first)
        named.now.listing.now.runs.items }
    ensures answer { MatchResult result
        (λ _. MakesRuns (making P.NewFiles outputs.old outputs.new) (I.bytes inputs.old file.now)
        named.now.listing.now (map string_bytes named.now.names.now))
        (λ _. StopsMaking (making P.NewFiles outputs.old outputs.new) (I.bytes inputs.old file.now)
        named.now.listing.now (map string_bytes named.now.names.now)) }
    ensures opened { MatchResult result
        (λ _. I.opened inputs.new ≡ I.opened inputs.old ++ replicate 1 file.now)
        (λ _. OpensUpTo (I.opened inputs.old) (I.opened inputs.new) file.now 1) }
    ensures same { (name : List ℕ) → I.bytes inputs.new name ≡ I.bytes inputs.old name }
{
    let Ok(mut reader) = inputs.open(alloc, file) else {
        return Err(Stop::Reading(WriteFault::Memory));
    };
    let mut fragment = match reopen_listed(alloc, &mut reader, named.listing) {
        Ok(fragment) => fragment,
        Err(fault) => return Err(Stop::Reading(fault)),
    };
    make_each(alloc, &mut fragment, &mut reader, named, outputs, out)?;
    match expect_end(&mut fragment, &mut reader) {
        Ok(()) => Ok(()),
        Err(fault) => Err(Stop::Reading(fault)),
    }
}

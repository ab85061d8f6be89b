//! What a picture shows of a recording, data record by data record.

ghost use Rattle.std.specs.Prelude.{◌≡◌, ◌++◌, ◌∷◌, [], ◌≤◌, ◌<◌, List, IfOk, OnOk, length};
ghost use Rattle.std.specs.Prelude.{map};
ghost use Rattle.edf_header.specs.declared.limits.TheConstants.{MOST_RECORDS};
ghost use Rattle.edf_fragment.specs.Fragment.{DataRecord};
ghost use Rattle.edf_runs.specs.Runs.{AreListed};
ghost use Rattle.edf_tal.specs.Tal.{Annotation};
ghost use Rattle.edfruns_command.specs.Picturing.{AreNoted, IsNoted};
ghost use Rattle.edfruns_command.specs.Picturing.{named_of, run_time};
ghost use Rattle.edf_picture.specs.Picture.{named_by};

use edf_field::MOST_DURATION;
use edf_fragment::Record;
use edf_header::Identity;
use edf_picture::{Bands, Extent, Note, Title};
use edf_runs::{Run, add_record};
use std::alloc::{AllocError, Global};

/// What a picture shows of the data records of a recording that were seen so far: their runs, their
/// annotations and their samples.
#[derive(Drop)]
pub(crate) struct Sight {
    alloc: Global,
    pub(crate) runs: Vec<Run>,
    pub(crate) notes: Vec<Note>,
    pub(crate) bands: Bands,
}

impl Sight {
    /// Before the first data record.
    pub(crate) fn new(alloc: Global, bands: Bands) -> Sight
        ensures runs { result.runs.items ≡ [] }
        ensures notes { result.notes.items ≡ [] }
    {
        Sight {
            alloc,
            runs: Vec::new(alloc),
            notes: Vec::new(alloc),
            bands,
        }
    }

    /// Takes the data record that comes next, which lasts so many nanoseconds as each of them.
    ///
    /// # Errors
    /// Where memory runs out. It then has a part of the data record, and is to be let go.
    pub(crate) fn add(&mut self, data_record: &Record, duration: u64) -> Result<(), AllocError>
        requires { duration ≤ MOST_DURATION }
        ensures runs { OnOk result ((records : List DataRecord) → length records < MOST_RECORDS →
            AreListed duration records self.old.runs.items →
            AreListed duration (records ++ data_record.now ∷ []) self.new.runs.items) }
        ensures notes { OnOk result ((before : List Annotation) →
            AreNoted before self.old.notes.items →
            AreNoted (before ++ data_record.now.annotations) self.new.notes.items) }
    {
        add_record(&mut self.runs, data_record, duration)?;
        self.bands
            .add(data_record.start().nanos(), data_record.samples());
        add_notes(&mut self.notes, self.alloc, data_record)
    }
}

/// What an annotation has.
fn noted(alloc: Global, note: &edf_tal::Note) -> Result<Note, AllocError>
    ensures { IfOk result (λ n. IsNoted note.now n) }
{
    let text = String::from_str(alloc, note.text())?;
    Ok(Note {
        onset: note.onset().nanos(),
        duration: note.duration(),
        text,
    })
}

/// Adds the annotations of a data record.
fn add_notes(notes: &mut Vec<Note>, alloc: Global, data_record: &Record) -> Result<(), AllocError>
    ensures { OnOk result ((before : List Annotation) → AreNoted before notes.old.items →
        AreNoted (before ++ data_record.now.annotations) notes.new.items) }
{
    for note in data_record.notes() {
        let copy = noted(alloc, note)?;
        notes.push(copy)?;
    }
    Ok(())
}

/// The times of runs whose data records last so many nanoseconds.
pub(crate) fn times_of(
    alloc: Global,
    duration: u64,
    runs: &[Run],
) -> Result<Vec<Extent>, AllocError>
    requires { duration ≤ MOST_DURATION }
    ensures { IfOk result (λ v. v.items ≡ map (run_time duration) runs.now) }
{
    let mut times = Vec::new(alloc);
    for run in runs {
        times.push(Extent {
            from: run.first().nanos(),
            to: run.last().nanos() + duration,
        })?;
    }
    Ok(times)
}

/// What a picture's title names: both codes, or that of the investigation alone.
pub(crate) fn title_of(identity: &Identity, has_code: bool) -> Title<'_>
    ensures { named_by result ≡ named_of identity.now has_code }
{
    let investigation = identity.investigation_code();
    if has_code {
        Title {
            patient: Some(identity.patient_code()),
            investigation,
        }
    } else {
        Title {
            patient: None,
            investigation,
        }
    }
}

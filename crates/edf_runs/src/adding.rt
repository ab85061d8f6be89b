//! How runs grow, data record by data record.

ghost use Rattle.std.specs.Prelude.{◌≡◌, ◌≤◌, ◌<◌, ◌+◌, ◌↔◌, ◌++◌, ◌∷◌, [], ℕ, List, IsTrue};
ghost use Rattle.std.specs.Prelude.{OnOk, length};
ghost use Rattle.edf_fragment.specs.Fragment.{DataRecord};
ghost use Rattle.edf_runs.specs.Runs.{IsListed, AreListed};

use crate::run::Run;
use edf_canonical::samples_of;
use edf_field::MOST_DURATION;
use edf_fragment::Record;
use edf_header::MOST_RECORDS;
use edf_time::Instant;
use std::alloc::AllocError;

impl Run {
    /// The run of one data record.
    pub(crate) fn of(data_record: &Record) -> Run
        ensures { (d : ℕ) → IsListed d (data_record.now ∷ []) result }
    {
        let first = data_record.start();
        Run {
            first,
            last: first,
            records: 1,
            block_samples: samples_of(data_record, first.second()),
        }
    }

    /// Whether this run ends at an instant.
    pub(crate) fn ends_at(&self, instant: Instant, duration: u64) -> bool
        requires { duration ≤ MOST_DURATION }
        ensures { IsTrue result ↔ (instant ≡ self.now.last + duration) }
    {
        instant.nanos() == self.last.nanos() + duration
    }

    /// This run with one more data record, which starts where it ends.
    pub(crate) fn with(&self, data_record: &Record) -> Run
        ensures { (d : ℕ) (records : List DataRecord) → IsListed d records self.now →
            data_record.now.start ≡ self.now.last + d → length records < MOST_RECORDS →
            IsListed d (records ++ data_record.now ∷ []) result }
    {
        let samples = samples_of(data_record, self.first.second());
        Run {
            first: self.first,
            last: data_record.start(),
            records: (self.records + 1).min(MOST_RECORDS),
            block_samples: self.block_samples.max(samples),
        }
    }
}

/// Adds a data record to the runs of those before it: to the last run where the data record starts
/// at that run's end, and else as a run of its own.
///
/// # Errors
/// Where memory runs out.
pub fn add_record(
    runs: &mut Vec<Run>,
    data_record: &Record,
    duration: u64,
) -> Result<(), AllocError>
    requires { duration ≤ MOST_DURATION }
    ensures { OnOk result ((records : List DataRecord) → length records < MOST_RECORDS →
        AreListed duration records runs.old.items →
        AreListed duration (records ++ data_record.now ∷ []) runs.new.items) }
{
    match runs.pop() {
        None => runs.push(Run::of(data_record))?,
        Some(run) if run.ends_at(data_record.start(), duration) => runs.push(run.with(
            data_record,
        ))?,
        Some(run) => {
            runs.push(run)?;
            runs.push(Run::of(data_record))?;
        }
    }
    Ok(())
}

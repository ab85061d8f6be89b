//! The measure of data records, which is needed before the first byte of their file.

ghost use Rattle.std.specs.Prelude.{◌≡◌, ◌≤◌, ◌<◌, ◌↔◌, ◌++◌, ◌∷◌, [], List, IsTrue, length};
ghost use Rattle.edf_header.specs.declared.limits.TheConstants.{MOST_RECORDS};
ghost use Rattle.edf_tal.specs.declared.limits.TheConstants.{MOST_CANONICAL_BLOCK_SAMPLES};

use crate::data_record::samples_of;
use edf_fragment::Record;
use edf_header::MOST_RECORDS;
use edf_time::Instant;

/// The start of the first data record of a file, the number of data records, and the number of
/// samples, two bytes each, that hold the longest block.
#[derive(Clone, Copy, Debug, PartialEq, Eq, Drop)]
pub struct Measure {
    pub first: Instant,
    pub records: u32,
    pub block_samples: u32,
    ghost records_some: { 1 ≤ records },
    ghost records_few: { records ≤ MOST_RECORDS },
    ghost block_some: { 1 ≤ block_samples },
    ghost block_few: { block_samples ≤ MOST_CANONICAL_BLOCK_SAMPLES },
}

impl Measure {
    ghost use Rattle.edf_fragment.specs.Fragment.{DataRecord};
    ghost use Rattle.edf_canonical.specs.Measure.{IsMeasured, IsMeasuredSoFar, HoldsBlock};
    ghost use Rattle.edf_canonical.specs.Measure.{IsWithinMeasure};

    /// Returns the measure of one data record.
    fn of(data_record: &Record) -> Measure
        ensures measured { IsMeasured (data_record.now ∷ []) result }
        ensures holds { HoldsBlock result data_record.now }
    {
        let first = data_record.start();
        Measure {
            first,
            records: 1,
            block_samples: samples_of(data_record, first.second()),
        }
    }

    /// Returns the measure of one data record more.
    fn with(&self, data_record: &Record) -> Measure
        ensures measured { (records : List DataRecord) → IsMeasured records self.now →
            length records < MOST_RECORDS →
            IsMeasured (records ++ data_record.now ∷ []) result }
        ensures holds { HoldsBlock result data_record.now }
    {
        let samples = samples_of(data_record, self.first.second());
        Measure {
            first: self.first,
            records: (self.records + 1).min(MOST_RECORDS),
            block_samples: self.block_samples.max(samples),
        }
    }

    /// Returns the measure of the data records before, where there were some, and of this one. It
    /// counts at most [`MOST_RECORDS`].
    pub fn after(before: Option<Measure>, data_record: &Record) -> Measure
        ensures measured { (records : List DataRecord) → IsMeasuredSoFar records before →
            length records < MOST_RECORDS →
            IsMeasured (records ++ data_record.now ∷ []) result }
        ensures holds { HoldsBlock result data_record.now }
    {
        match before {
            Some(measure) => measure.with(data_record),
            None => Measure::of(data_record),
        }
    }

    /// Is true where data records of this measure may be the first of those of another.
    pub(crate) fn is_within_measure(&self, whole: &Measure) -> bool
        ensures { IsTrue result ↔ IsWithinMeasure self.now whole.now }
    {
        self.first.nanos() == whole.first.nanos()
            && self.records <= whole.records
            && self.block_samples <= whole.block_samples
    }

    /// Returns the number of data records that were measured.
    pub(crate) fn count(so_far: &Option<Measure>) -> usize
        ensures { (records : List DataRecord) → IsMeasuredSoFar records so_far.now →
            result ≡ length records }
    {
        match so_far {
            Some(measure) => measure.records as usize,
            None => 0,
        }
    }

    /// Is true where data records that may be the first ones of another measure are all of them.
    pub(crate) fn is_whole(&self, whole: &Measure) -> bool
        ensures { IsTrue result ↔ ((self.now.records ≡ whole.now.records)
            × (self.now.block_samples ≡ whole.now.block_samples)) }
    {
        self.records == whole.records && self.block_samples == whole.block_samples
    }
}

ghost use Rattle.std.specs.Prelude.{◌≡◌, ◌≤◌, ◌+◌, ◌↔◌, length, MatchOption, IsTrue};
ghost use Rattle.std.specs.List.{AllByRecursion};
ghost use Rattle.edf_tal.specs.Block.{IsWithinLimits};
ghost use Rattle.edf_tal.specs.Tal.{IsValidAnnotation};
ghost use Rattle.edf_fragment.specs.Fragment.{DataRecord, IsRecordWithinLimits};
ghost use Rattle.edf_fragment.specs.Sound.{IsValidRecord};

use edf_header::MOST_BLOCK_BYTES;
use edf_tal::{MOST_ANNOTATIONS, MOST_TEXT_BYTES, Note, same_notes};
use edf_time::Instant;
use edf_time::laws::instant_is_in_window;
use std::marker::Model;

/// A data record: its start, its ordinary sample bytes in signal order, and its annotations in
/// order.
///
/// A sample is 16 bits, two's complement, the lower byte first (EDF, data records). The
/// time-keeping annotation is not in the list; its onset is the start. A data record has at most
/// `MOST_BLOCK_BYTES` of samples, and `MOST_ANNOTATIONS` annotations with `MOST_TEXT_BYTES` of
/// texts.
#[derive(Drop)]
pub struct Record {
    start: Instant,
    samples: Vec<u8>,
    notes: Vec<Note>,
}

impl Model for Record {
    ghost use Rattle.edf_fragment.specs.Fragment.{DataRecord};
    ghost use Rattle.edf_fragment.specs.Sound.{IsValidRecord};

    ghost Value = { DataRecord };

    ghost view = { λ r.
        record { start = r.start; samples = r.samples.items; annotations = r.notes.items } };

    ghost invariant = { λ r. IsValidRecord
        (record { start = r.start; samples = r.samples.items; annotations = r.notes.items }) };
}

/// Is true where there are at most `MOST_ANNOTATIONS`, with at most `MOST_TEXT_BYTES` of texts.
fn are_within_limits(notes: &[Note]) -> bool
    ensures limits { IsTrue result ↔ IsWithinLimits notes.now }
    ensures notes { IsTrue result → AllByRecursion IsValidAnnotation notes.now }
{
    if notes.len() > MOST_ANNOTATIONS {
        return false;
    }
    let mut bytes = 0;
    for note in notes {
        let more = note.text().len();
        if more > MOST_TEXT_BYTES - bytes {
            return false;
        }
        bytes += more;
    }
    true
}

impl Record {
    /// Returns the data record of these parts, or `None` where they are past its limits.
    pub fn new(start: Instant, samples: Vec<u8>, notes: Vec<Note>) -> Option<Record>
        ensures { let parts : DataRecord =
            record { start = start; samples = samples.items; annotations = notes.items } in
            MatchOption result (¬ IsRecordWithinLimits parts) (λ r. IsValidRecord r × (r ≡ parts)) }
    {
        instant_is_in_window(start);
        if samples.len() <= MOST_BLOCK_BYTES && are_within_limits(notes.as_slice()) {
            Some(Record::within_limits(start, samples, notes))
        } else {
            None
        }
    }

    /// Returns the data record of parts that are known to be within its limits.
    pub(crate) fn within_limits(start: Instant, samples: Vec<u8>, notes: Vec<Note>) -> Record
        requires { IsValidRecord
            (record { start = start; samples = samples.items; annotations = notes.items }) }
        ensures { result
            ≡ record { start = start; samples = samples.items; annotations = notes.items } }
    {
        Record {
            start,
            samples,
            notes,
        }
    }

    /// Returns the data record of the same samples, which are not copied, with this start and these
    /// annotations, or `None` where they are past the limits.
    pub fn with(self, start: Instant, notes: Vec<Note>) -> Option<Record>
        ensures { let parts : DataRecord =
            record { start = start; samples = self.samples; annotations = notes.items } in
            MatchOption result (¬ IsWithinLimits notes.items)
            (λ r. IsValidRecord r × (r ≡ parts)) }
    {
        let Record {
            start: _,
            samples,
            notes: _,
        } = self;
        instant_is_in_window(start);
        if are_within_limits(notes.as_slice()) {
            Some(Record::within_limits(start, samples, notes))
        } else {
            None
        }
    }

    /// Returns the start: the onset of the time-keeping annotation.
    pub fn start(&self) -> Instant
        ensures value { result ≡ self.now.start }
        ensures valid { IsValidRecord self.now }
    {
        self.start
    }

    /// Returns the bytes of each ordinary signal in turn, two for a sample, the lower first.
    pub fn samples(&self) -> &[u8]
        ensures value { result.now ≡ self.now.samples }
        ensures limit { length result.now ≤ MOST_BLOCK_BYTES }
        ensures valid { IsValidRecord self.now }
    {
        self.samples.as_slice()
    }

    /// Returns the annotations in order, without the time-keeping one.
    pub fn notes(&self) -> &[Note]
        ensures value { result.now ≡ self.now.annotations }
        ensures limits { IsWithinLimits result.now }
        ensures valid { IsValidRecord self.now }
    {
        self.notes.as_slice()
    }

    /// Is true where the two have the same start, samples and annotations.
    pub fn same(&self, other: &Record) -> bool
        ensures { IsTrue result ↔ (self.now ≡ other.now) }
    {
        self.start == other.start
            && self.samples.as_slice() == other.samples.as_slice()
            && same_notes(self.notes.as_slice(), other.notes.as_slice())
    }
}

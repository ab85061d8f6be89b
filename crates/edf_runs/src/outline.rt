//! An outline of a file: whose it is, and all of its data records but their samples.

ghost use Rattle.std.specs.Prelude.{◌≡◌, ◌≤◌, List, length, map};
ghost use Rattle.edf_field.specs.declared.number.TheConstants.{MOST_DURATION};
ghost use Rattle.edf_header.specs.declared.limits.TheConstants.{MOST_RECORDS};
ghost use Rattle.edf_fragment.specs.Fragment.{DataRecord};
ghost use Rattle.edf_runs.specs.Crowded.{IsRunCount};

use edf_field::MOST_DURATION;
use edf_header::{Identity, MOST_RECORDS};
use edf_tal::Note;
use edf_time::Instant;

/// Data records have a start each, and a number of annotations, which stand together in their
/// order.
#[derive(Drop)]
pub(crate) struct Spans {
    pub(crate) starts: Vec<Instant>,
    /// How many of the annotations each data record has.
    pub(crate) counts: Vec<u16>,
    pub(crate) notes: Vec<Note>,
}

/// A file has an identity, and data records, whose samples are left out here.
#[derive(Drop)]
pub struct Outline {
    pub(crate) identity: Identity,
    pub(crate) spans: Spans,
    ghost some: { 1 ≤ length spans.starts.items },
    ghost few: { length spans.starts.items ≤ MOST_RECORDS },
}

/// Returns how many runs the data records of these starts have.
pub(crate) fn count_runs(starts: &[Instant], duration: u64) -> usize
    requires { duration ≤ MOST_DURATION }
    ensures { (records : List DataRecord) →
        map (λ (r : DataRecord). r.start) records ≡ starts.now →
        IsRunCount duration records result }
{
    let mut count = 0;
    let mut end: Option<u64> = None;
    for start in starts {
        if end != Some(start.nanos()) {
            count += 1;
        }
        end = Some(start.nanos() + duration);
    }
    count
}

impl Outline {
    ghost use Rattle.std.specs.Prelude.{◌≡◌, ◌∷◌, ◌++◌, [], nat_le};
    ghost use Rattle.edf_field.specs.Number.{duration_of};
    ghost use Rattle.edf_header.specs.Key.{Key};
    ghost use Rattle.edf_runs.specs.Outline.{IsOutline};

    /// Returns the identity of its recording.
    pub fn identity(&self) -> &Identity
        ensures { result.now ≡ self.now.identity }
    {
        &self.identity
    }

    /// Returns the number of the run, from 1, that has the data record of this start.
    pub fn run_at(&self, start: Instant) -> usize
        ensures { (k : Key) (before after : List DataRecord) (r : DataRecord) →
            IsOutline k (before ++ r ∷ after) self.now → r.start ≡ start →
            IsRunCount (duration_of k.duration) (before ++ r ∷ []) result }
    {
        let nanos = start.nanos();
        let starts = self.spans.starts.as_slice();
        let begun = starts.partition_point(
            |one: &Instant| -> bool
                ensures { result ≡ nat_le one.now nanos }
            { one.nanos() <= nanos },
        );
        count_runs(&starts[..begun], self.identity.duration())
    }
}

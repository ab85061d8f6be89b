//! How many annotations data records have, and how many of these lie outside of a run.

ghost use Rattle.std.specs.Prelude.{◌≡◌, ◌≤◌, [], count_by};
ghost use Rattle.edf_runs.specs.Counted.{is_outside};
ghost use Rattle.edf_runs.specs.Inside.Putting.{CountsOneMore};
ghost use Rattle.edf_runs.specs.Inside.Tally.{IsTallied};

use crate::run::Run;
use crate::tally::Tally;
use edf_field::MOST_DURATION;
use edf_fragment::Record;
use edf_tal::Note;

/// How many of these annotations have an onset before one instant, or at or after another.
pub(crate) fn outside_of(notes: &[Note], first: u64, end: u64) -> usize
    ensures { result ≡ count_by (is_outside first end) notes.now }
{
    notes
        .iter()
        .filter(|note| note.onset().nanos() < first || note.onset().nanos() >= end)
        .count()
}

impl Tally {
    /// Of no data record of a run.
    pub(crate) fn of(run: &Run, duration: u64) -> Tally
        requires { duration ≤ MOST_DURATION }
        ensures { IsTallied duration run.now [] result }
    {
        Tally {
            first: run.first().nanos(),
            end: run.last().nanos() + duration,
            annotations: 0,
            outside: 0,
        }
    }

    /// With one more data record.
    pub(crate) fn with(self, data_record: &Record) -> Tally
        ensures { CountsOneMore self data_record.now result }
    {
        let notes = data_record.notes();
        let outside = outside_of(notes, self.first, self.end);
        Tally {
            first: self.first,
            end: self.end,
            annotations: self.annotations.saturating_add(notes.len() as u64),
            outside: self.outside.saturating_add(outside as u64),
        }
    }
}

//! Annotations of an outline whose onset lies in none of its data records.

ghost use Rattle.std.specs.Prelude.{◌≡◌, ◌≤◌, ℕ, List, cond, not, count_by};
ghost use Rattle.edf_field.specs.Number.{duration_of};
ghost use Rattle.edf_field.specs.declared.number.TheConstants.{MOST_DURATION};
ghost use Rattle.edf_header.specs.Key.{Key};
ghost use Rattle.edf_fragment.specs.Fragment.{DataRecord};
ghost use Rattle.edf_runs.specs.OneByOnset.{outside_count};
ghost use Rattle.edf_runs.specs.Outline.{IsOutline};
ghost use Rattle.edf_runs.specs.Inside.Counting.{lies_at};
ghost use Rattle.edf_runs.specs.Inside.Stretching.{Rise};

use crate::moving::start_at;
use crate::outline::Outline;
use edf_field::MOST_DURATION;
use edf_tal::Note;
use edf_time::Instant;

/// Returns 1 where an annotation has its onset in no data record, and else 0.
fn outside_one(starts: &[Instant], duration: u64, onset: Instant) -> usize
    requires { duration ≤ MOST_DURATION }
    ensures few { result ≤ 1 }
    ensures value { Rise duration 0 starts.now →
        result ≡ cond (not (lies_at duration starts.now onset)) 1 0 }
{
    match start_at(starts, duration, onset) {
        Some(_) => 0,
        None => 1,
    }
}

/// Returns how many of some annotations have their onset in no data record.
fn outside_in(starts: &[Instant], duration: u64, notes: &[Note]) -> usize
    requires { duration ≤ MOST_DURATION }
    ensures { Rise duration 0 starts.now →
        result ≡ count_by (λ a. not (lies_at duration starts.now a.onset)) notes.now }
{
    let mut outside = 0;
    for note in notes {
        outside += outside_one(starts, duration, note.onset());
    }
    outside
}

/// Returns how many annotations of an outline have an onset that none of its data records has.
pub fn count_outside(outline: &Outline) -> usize
    ensures { (k : Key) (records : List DataRecord) → IsOutline k records outline.now →
        result ≡ outside_count (duration_of k.duration) records }
{
    outside_in(
        outline.spans.starts.as_slice(),
        outline.identity.duration(),
        outline.spans.notes.as_slice(),
    )
}

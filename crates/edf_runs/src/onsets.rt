//! An outline with each annotation in the data record that has its onset.

ghost use Rattle.std.specs.Prelude.{◌≡◌, ◌≤◌, ℕ, List, IfOk, MatchOption, MatchResult, length, map};
ghost use Rattle.edf_field.specs.Number.{duration_of};
ghost use Rattle.edf_field.specs.declared.number.TheConstants.{MOST_DURATION};
ghost use Rattle.edf_header.specs.Key.{Key};
ghost use Rattle.edf_tal.specs.Block.{IsWithinLimits};
ghost use Rattle.edf_fragment.specs.Fragment.{DataRecord};
ghost use Rattle.edf_runs.specs.ByOnset.{by_onset};
ghost use Rattle.edf_runs.specs.Outline.{IsOutline};
ghost use Rattle.edf_runs.specs.Inside.Counting.{AreCountsOf, HaveCrowded};
ghost use Rattle.edf_runs.specs.Inside.Spreading.{count_before, spread};

use crate::crowded_fault::CrowdedFault;
use crate::filled_places::count_earlier;
use crate::ordering::in_order;
use crate::outline::{Outline, Spans, count_runs};
use crate::spots::copy_notes;
use edf_field::MOST_DURATION;
use edf_fragment::Record;
use edf_tal::Note;
use edf_time::Instant;
use std::alloc::{AllocError, Global};

/// Returns how many annotations there are before the first that is of later data records.
fn count_before(notes: &[Note], later: &[Instant]) -> usize
    ensures value { (records : List DataRecord) →
        map (λ (r : DataRecord). r.start) records ≡ later.now →
        result ≡ count_before notes.now records }
    ensures within { result ≤ length notes.now }
{
    match later.first() {
        Some(next) => count_earlier(notes, next.nanos()),
        None => notes.len(),
    }
}

/// Returns how many annotations the data record of this start has; `None` where they are too many.
fn count_within(alloc: Global, start: Instant, notes: &[Note]) -> Result<Option<u16>, AllocError>
    ensures { IfOk result (λ within. MatchOption within (¬ IsWithinLimits notes.now)
        (λ count. (count ≡ length notes.now) × IsWithinLimits notes.now)) }
{
    let mut copies = Vec::new(alloc);
    copy_notes(alloc, notes, &mut copies)?;
    match Record::new(start, Vec::new(alloc), copies) {
        Some(_) => Ok(Some(notes.len() as u16)),
        None => Ok(None),
    }
}

/// Returns how many annotations each data record has, where they are spread over all of them.
fn counts_by_onset(
    alloc: Global,
    starts: &[Instant],
    notes: &[Note],
    duration: u64,
) -> Result<Vec<u16>, CrowdedFault>
    requires { duration ≤ MOST_DURATION }
    ensures { (records : List DataRecord) →
        map (λ (r : DataRecord). r.start) records ≡ starts.now → MatchResult result
        (λ counts. AreCountsOf (spread notes.now records) counts.items)
        (HaveCrowded duration (spread notes.now records)) }
{
    let mut counts = Vec::new(alloc);
    let mut later = starts;
    let mut left = notes;
    'starts: while let Some((start, rest)) = later.split_first() {
        let (here, more) = left.split_at(count_before(left, rest));
        let Some(count) = count_within(alloc, *start, here)? else {
            let passed = starts.len().saturating_sub(rest.len());
            return Err(CrowdedFault::Crowded(count_runs(&starts[..passed], duration)));
        };
        if counts.push(count).is_err() {
            return Err(CrowdedFault::Memory);
        }
        later = rest;
        left = more;
    }
    Ok(counts)
}

/// Returns the outline of the same data records, but each annotation is in the last that starts at
/// or before its onset, or, where none does, in the first.
///
/// # Errors
/// `Crowded` where a data record would have too many; `Memory` where memory ran out.
pub fn by_onset(alloc: Global, outline: Outline) -> Result<Outline, CrowdedFault>
    ensures { (k : Key) (records : List DataRecord) → IsOutline k records outline →
        MatchResult result (IsOutline k (by_onset records))
        (HaveCrowded (duration_of k.duration) (by_onset records)) }
{
    let Outline { identity, spans } = outline;
    let Spans {
        starts,
        counts: _,
        notes,
    } = spans;
    let notes = in_order(notes)?;
    let counts = counts_by_onset(
        alloc,
        starts.as_slice(),
        notes.as_slice(),
        identity.duration(),
    )?;
    Ok(Outline {
        identity,
        spans: Spans {
            starts,
            counts,
            notes,
        },
    })
}

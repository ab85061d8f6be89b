//! A recording is filled: whose file it is, its places, and what is counted of it.

ghost use Rattle.std.specs.Prelude.{◌≡◌, ◌≤◌, ◌+◌, ◌*◌, ◌++◌, ◌∷◌, [], ℕ, List, IfOk, IfSome, None};
ghost use Rattle.std.specs.Prelude.{length, map, count_by};
ghost use Rattle.std.specs.List.{AllZip};
ghost use Rattle.edf_field.specs.declared.number.TheConstants.{MOST_DURATION};
ghost use Rattle.edf_field.specs.Number.{duration_of};
ghost use Rattle.edf_header.specs.declared.limits.TheConstants.{MOST_RECORDS};
ghost use Rattle.edf_header.specs.Signal.{samples};
ghost use Rattle.edf_tal.specs.Tal.{Annotation};
ghost use Rattle.edf_header.specs.Key.{Key};
ghost use Rattle.edf_fragment.specs.Fragment.{DataRecord};
ghost use Rattle.edf_runs.specs.FillAnswers.{AreFillCounts, starts_of, neighbours};
ghost use Rattle.edf_runs.specs.FillAnswers.{is_closed};
ghost use Rattle.edf_runs.specs.Filled.{place_of};
ghost use Rattle.edf_runs.specs.Outline.{IsOutline};
ghost use Rattle.edf_runs.specs.Inside.Filling.{gap_before, gaps_from, GapsWithin, furthest_from};
ghost use Rattle.edf_runs.specs.Inside.Filling.{IsDivided, IsNamed, IsFilling, MeasuresPlaces};
ghost use Rattle.edf_runs.specs.Inside.Filling.{KeepsLimits};
ghost use Rattle.edf_runs.specs.Inside.Moving.{MovesNote, stretch_notes};
ghost use Rattle.edf_runs.specs.Inside.Stretching.{Rise};
ghost use Rattle.edf_runs.specs.Order.{in_order};

use crate::division::{Division, divide, sizes_of};
use crate::fill_fault::FillFault;
use crate::filled::{FillCounts, FillLimits, Filled};
use crate::filled_identity::filled_identity;
use crate::filled_places::Places;
use crate::ordering::in_order;
use crate::outline::Outline;
use crate::parted::{FilledParts, Parted};
use crate::places::apart;
use edf_canonical::Measure;
use edf_field::MOST_DURATION;
use edf_fragment::Record;
use edf_header::laws::identity_is_key;
use edf_header::{Identity, MOST_RECORDS};
use edf_tal::Note;
use edf_time::Instant;
use std::alloc::{AllocError, Global};

/// Returns how long the gap is before a data record, where the one before ended at some instant.
fn gap_before(end: Option<u64>, start: Instant) -> u64
    ensures { result ≡ gap_before end start }
{
    match end {
        Some(end) => start.nanos().saturating_sub(end),
        None => 0,
    }
}

/// Counts the gaps of data records.
///
/// # Errors
/// `LongGap` for the first that is longer than allowed.
fn count_gaps(starts: &[Instant], duration: u64, longest: u64) -> Result<u32, FillFault>
    requires short { duration ≤ MOST_DURATION }
    requires few { length starts.now ≤ MOST_RECORDS }
    ensures counted { IfOk result (λ gaps. gaps ≡ gaps_from duration None starts.now) }
    ensures allowed { IfOk result (λ gaps. GapsWithin longest duration None starts.now) }
{
    let mut gaps = 0;
    let mut end: Option<u64> = None;
    for start in starts {
        let nanos = gap_before(end, *start);
        if nanos > longest {
            let from = start.nanos().saturating_sub(nanos);
            return Err(FillFault::LongGap { from, nanos });
        }
        gaps += nanos.min(1) as u32;
        end = Some(start.nanos() + duration);
    }
    Ok(gaps)
}

/// Returns the furthest move of a data record.
///
/// # Errors
/// `Moved` for the first that would move further than allowed.
fn furthest_move(parted: &Parted<'_>, most: u64) -> Result<u64, FillFault>
    ensures furthest { IfOk result (λ moved. moved ≡ furthest_from parted.now.division.unit
        parted.now.first 0 parted.now.starts.now) }
    ensures allowed { IfOk result (λ moved. moved ≤ most) }
{
    let mut furthest = 0;
    for start in parted.starts {
        let place = parted.first.nanos() + parted.place_of(*start) * parted.division.unit;
        let nanos = apart(place, start.nanos());
        if nanos > most {
            return Err(FillFault::Moved {
                start: *start,
                nanos,
            });
        }
        furthest = furthest.max(nanos);
    }
    Ok(furthest)
}

/// Is true where there is a gap between two data records, and no place.
fn is_closed(parted: &Parted<'_>, before: Instant, start: Instant) -> bool
    ensures { result ≡ is_closed parted.now.duration parted.now.division.parts
        parted.now.division.unit parted.now.first (before, start) }
{
    let place = parted.place_of(before) + u64::from(parted.division.parts);
    before.nanos() + parted.duration < start.nanos() && parted.place_of(start) == place
}

/// Returns how many gaps came to no place.
fn count_closed(parted: &Parted<'_>) -> u32
    requires { length parted.now.starts.now ≤ MOST_RECORDS }
    ensures { result ≡ count_by (is_closed parted.now.duration parted.now.division.parts
        parted.now.division.unit parted.now.first) (neighbours parted.now.starts.now) }
{
    let mut closed = 0;
    let mut before: Option<Instant> = None;
    for start in parted.starts {
        if let Some(before) = before {
            closed += u32::from(is_closed(parted, before, *start));
        }
        before = Some(*start);
    }
    closed
}

/// Returns all annotations of the filled file, in order.
fn filled_notes(alloc: Global, parted: &Parted<'_>, notes: &[Note]) -> Result<Vec<Note>, FillFault>
    ensures { IfOk result (λ sorted. Rise parted.now.duration 0 parted.now.starts.now →
        (moved : List Annotation) × AllZip (MovesNote parted.now) notes.now moved
        × (sorted.items ≡ in_order (moved ++ stretch_notes parted.now 0 parted.now.starts.now))) }
{
    let mut all = Vec::new(alloc);
    parted.push_moved(alloc, notes, &mut all)?;
    parted.push_stretches(alloc, &mut all)?;
    let sorted = in_order(all)?;
    Ok(sorted)
}

/// Returns the division of a recording's data records: those without a gap stay whole.
fn division_of(identity: &Identity, sizes: &[u32], gaps: u32) -> Division
    requires { sizes.now ≡ map samples identity.now.signals }
    ensures { IsDivided identity.now gaps result.parts result.unit }
{
    identity_is_key(identity);
    let duration = identity.duration();
    if gaps == 0 {
        return Division {
            parts: 1,
            unit: duration,
        };
    }
    divide(duration, sizes)
}

/// Returns a copy of an identity.
fn copy_identity(alloc: Global, identity: &Identity) -> Result<Identity, AllocError>
    ensures { IfOk result (λ copy. copy ≡ identity.now) }
{
    let bytes = identity.to_bytes(alloc)?;
    match Identity::from_bytes(alloc, bytes.as_slice()) {
        Ok(copy) => Ok(copy),
        Err(_) => Err(AllocError),
    }
}

/// Returns the identity of the filled file, that of the recording where it has no gap; or `None`
/// where its recording field has no room for the mark.
fn named_identity(
    alloc: Global,
    identity: &Identity,
    sizes: &[u32],
    division: Division,
    gaps: u32,
) -> Result<Option<Identity>, AllocError>
    requires sized { sizes.now ≡ map samples identity.now.signals }
    requires divided { IsDivided identity.now gaps division.parts division.unit }
    ensures { IfOk result (λ named. IfSome named
        (IsNamed identity.now gaps division.parts division.unit)) }
{
    if gaps == 0 {
        return Ok(Some(copy_identity(alloc, identity)?));
    }
    filled_identity(alloc, identity, sizes, division)
}

/// Returns the identity of the filled file.
fn identity_of(
    alloc: Global,
    identity: &Identity,
    sizes: &[u32],
    division: Division,
    gaps: u32,
) -> Result<Identity, FillFault>
    requires sized { sizes.now ≡ map samples identity.now.signals }
    requires divided { IsDivided identity.now gaps division.parts division.unit }
    ensures named { IfOk result (IsNamed identity.now gaps division.parts division.unit) }
    ensures lasts { IfOk result (λ key. division.unit ≡ duration_of key.duration) }
{
    let Some(named) = named_identity(alloc, identity, sizes, division, gaps)? else {
        return Err(FillFault::NoRoom);
    };
    // what was written as the duration is read as it again
    if named.duration() == division.unit {
        Ok(named)
    } else {
        Err(FillFault::Memory)
    }
}

/// Returns how many places a filled file has.
fn count_places(parted: &Parted<'_>) -> Result<u32, FillFault>
    requires { 1 ≤ length parted.now.starts.now }
    ensures few { IfOk result (λ count. count ≤ MOST_RECORDS) }
    ensures counted { IfOk result (λ count. (before : List ℕ) (last : ℕ) →
        parted.now.starts.now ≡ before ++ last ∷ [] →
        count ≡ place_of parted.now.division.unit parted.now.first last
        + parted.now.division.parts) }
{
    let Some(last) = parted.starts.last() else {
        unreachable!()
    };
    let count = parted.place_of(*last) + u64::from(parted.division.parts);
    if count > u64::from(MOST_RECORDS) {
        return Err(FillFault::TooLong);
    }
    Ok(count as u32)
}

/// Returns how many of so many places no data record has.
fn count_flat(parted: &Parted<'_>, places: u32) -> u32
    requires { length parted.now.starts.now ≤ MOST_RECORDS }
    ensures { parted.now.division.parts * length parted.now.starts.now ≤ places →
        result + parted.now.division.parts * length parted.now.starts.now ≡ places }
{
    let whole_places = parted.starts.len() as u64 * u64::from(parted.division.parts);
    u64::from(places).saturating_sub(whole_places) as u32
}

/// Returns the measure of so many places.
fn measure_of(alloc: Global, mut places: Places<'_>, count: u32) -> Result<Measure, FillFault>
    ensures { IfOk result (MeasuresPlaces places.entry count) }
{
    let mut measure: Option<Measure> = None;
    'places: for _ in 0..count {
        let Some(place) = places.next(alloc)? else {
            return Err(FillFault::TooLong);
        };
        let Some(bare) = Record::new(place.start, Vec::new(alloc), place.notes) else {
            return Err(FillFault::Crowded);
        };
        measure = Some(Measure::after(measure, &bare));
    }
    match measure {
        Some(measure) => Ok(measure),
        None => Err(FillFault::TooLong),
    }
}

/// Makes the filled file of a recording: its samples are left out.
///
/// # Errors
/// As [`FillFault`] says; where more than one is true, `LongGap` before `NoRoom` before `Moved`
/// before `TooLong` before the others.
pub fn fill(alloc: Global, outline: &Outline, limits: FillLimits) -> Result<Filled, FillFault>
    ensures filled { IfOk result (IsFilling outline.now) }
    ensures allowed { IfOk result (KeepsLimits limits outline.now) }
    ensures counted { IfOk result (λ filled. (k : Key) (r : DataRecord) (rs : List DataRecord) →
        IsOutline k (r ∷ rs) outline.now → AreFillCounts (duration_of k.duration)
        filled.parts.division.parts filled.parts.division.unit r.start (starts_of (r ∷ rs))
        filled.counts) }
{
    let starts = outline.spans.starts.as_slice();
    let whole = &outline.identity;
    let duration = whole.duration();
    let gaps = count_gaps(starts, duration, limits.longest_gap)?;
    let sizes = sizes_of(alloc, whole)?;
    let division = division_of(whole, sizes.as_slice(), gaps);
    let identity = identity_of(alloc, whole, sizes.as_slice(), division, gaps)?;
    let Some(first) = starts.first().copied() else {
        unreachable!()
    };
    let parted = Parted {
        starts,
        first,
        duration,
        division,
    };
    let moved = furthest_move(&parted, limits.moved)?;
    let records = count_places(&parted)?;
    let notes = filled_notes(alloc, &parted, outline.spans.notes.as_slice())?;
    let parts = FilledParts {
        division,
        first,
        sizes,
        bytes: whole.ordinary_bytes(),
        flat: identity.flat_samples(alloc)?,
    };
    let places = Places {
        parts: &parts,
        later: starts,
        notes: notes.as_slice(),
        nth: 0,
        left: 0,
    };
    let measure = measure_of(alloc, places, records)?;
    let counts = FillCounts {
        records,
        flat: count_flat(&parted, records),
        gaps,
        closed: count_closed(&parted),
        moved,
    };
    Ok(Filled {
        identity,
        parts,
        notes,
        measure,
        counts,
    })
}

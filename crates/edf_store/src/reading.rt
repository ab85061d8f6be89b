//! A transaction reads a recording.

ghost use Rattle.std.specs.Prelude.{◌≡◌, ◌≢◌, ◌*◌, ◌<◌, ◌≤◌, ℕ, ℤ, pos, ◌-ℤ◌, unsigned_abs, Some};
ghost use Rattle.std.specs.Prelude.{None, length, IsTrue, IfOk, IfErr};
ghost use Rattle.std.specs.Option.{option_map};
ghost use Rattle.edf_time.specs.Civil.{window};
ghost use Rattle.edf_header.specs.Key.{Key};
ghost use Rattle.edf_holdings.specs.Holdings.{Holdings};
ghost use Rattle.edf_store.specs.Call.{AnswersWith};
ghost use Rattle.edf_store.specs.Transaction.{Sees, IsOf, AreNear, IsNextStartOf, IsCountOf};
ghost use Rattle.edf_store.specs.Transaction.{IsCapacityAnswer};
ghost use Rattle.edf_store.specs.Inside.Rows.{HasRecording, HasRecordingOf, ReadsRows};
ghost use Rattle.edf_store.specs.Inside.Rows.{ReadsOurRows};

use crate::decode::records_in;
use crate::fault::RowFault;
use crate::store::Store;
use crate::summaries::instant_in;
use edf_fragment::Record;
use edf_tables::{count_rows, first_start, last_start, near_rows};
use edf_time::Instant;
use sqlite::{Alter, Error};

/// Returns the data records whose intervals of this duration overlap the one from `start` on.
pub(crate) fn records_near<S: Alter>(
    store: &mut Store<S>,
    id: i64,
    start: Instant,
    duration: u64,
) -> Result<Vec<Record>, RowFault>
    requires recording { HasRecordingOf S.Store store.old id duration }
    ensures reads { ReadsRows S.Store store.old store.new result }
    ensures near { ReadsOurRows S.Store store.new result (λ records.
        AreNear S.Store store.old id start records.items) }
    ensures two { AnswersWith S.Store store.new result (λ records. length records.items ≤ 2) }
{
    let begin = start.nanos() as i64;
    let length = duration as i64;
    let rows = near_rows(
        store.alloc,
        &mut store.conn,
        id,
        begin - length,
        begin + length,
    )?;
    records_in(store.alloc, rows)
}

/// Returns the first start of a recording's data records that is `from` or later.
pub(crate) fn next_start<S: Alter>(
    store: &mut Store<S>,
    id: i64,
    from: Instant,
) -> Result<Option<Instant>, RowFault>
    requires recording { HasRecording S.Store store.old id }
    ensures reads { ReadsRows S.Store store.old store.new result }
    ensures next { ReadsOurRows S.Store store.new result (IsNextStartOf S.Store store.old id from) }
{
    let next = edf_tables::next_start(&mut store.conn, id, from.nanos() as i64)?;
    start_in(next)
}

/// Reads the start that the tables have, if they have one.
fn start_in(next: Option<i64>) -> Result<Option<Instant>, RowFault>
    ensures read { IfOk result (λ start. next ≡ option_map pos start) }
    ensures foreign { IfErr result (λ _.
        (next ≢ None) × ((n : ℕ) → n < window → next ≢ Some (pos n))) }
{
    let Some(nanos) = next else {
        return Ok(None);
    };
    match instant_in(Some(nanos)) {
        Some(start) => Ok(Some(start)),
        None => Err(RowFault::Foreign),
    }
}

/// Counts the data records of a recording.
pub(crate) fn count_records<S: Alter>(store: &mut Store<S>, id: i64) -> Result<u32, Error>
    requires recording { HasRecording S.Store store.old id }
    ensures reads { ReadsRows S.Store store.old store.new result }
    ensures count { AnswersWith S.Store store.new result (IsCountOf S.Store store.old id) }
{
    let count = count_rows(&mut store.conn, id)?;
    let Ok(count) = u32::try_from(count) else {
        return Err(Error::IntegralValueOutOfRange(0));
    };
    Ok(count)
}

/// Is true where a recording has capacity for `more` data records. They are counted where the first
/// start and the last don't decide.
pub(crate) fn has_capacity<S: Alter>(
    store: &mut Store<S>,
    id: i64,
    duration: u64,
    more: u32,
) -> Result<bool, Error>
    requires recording { HasRecordingOf S.Store store.old id duration }
    ensures reads { ReadsRows S.Store store.old store.new result }
    ensures spare { AnswersWith S.Store store.new result
        (IsCapacityAnswer S.Store store.old id more) }
{
    let cap = store.cap;
    let short = is_short(store, id, duration, cap.saturating_sub(more))?;
    if short {
        return Ok(true);
    }
    let held = count_records(store, id)?;
    Ok(more <= cap.saturating_sub(held))
}

/// Is true where a recording has records, in so little time that they are at most `most`.
fn is_short<S: Alter>(
    store: &mut Store<S>,
    id: i64,
    duration: u64,
    most: u32,
) -> Result<bool, Error>
    requires recording { HasRecordingOf S.Store store.old id duration }
    ensures reads { ReadsRows S.Store store.old store.new result }
    ensures short { AnswersWith S.Store store.new result (λ short.
        IsTrue short → (h : Holdings) (k : Key) → Sees S.Store store.old h →
        IsOf S.Store store.old id k → (0 < length (h k)) × (length (h k) ≤ most)) }
{
    let first = first_start(&mut store.conn, id)?;
    let last = last_start(&mut store.conn, id)?;
    Ok(lie_within(first, last, duration, most))
}

/// Is true where two starts are there, and fewer than `most` durations lie between them.
fn lie_within(first: Option<i64>, last: Option<i64>, duration: u64, most: u32) -> bool
    ensures { IsTrue result →
        (a b : ℤ) × (first ≡ Some a) × (last ≡ Some b) × (unsigned_abs (b -ℤ a) < most * duration) }
{
    match (first, last) {
        (Some(first), Some(last)) => {
            last.abs_diff(first) < u64::from(most).saturating_mul(duration)
        }
        _ => false,
    }
}

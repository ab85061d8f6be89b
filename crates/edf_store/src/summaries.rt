//! A store lists its identities, and summarizes what it has of each.

ghost use Rattle.std.specs.Prelude.{◌≡◌, ◌≢◌, ◌≤◌, ◌<◌, ℕ, pos, Some, IfOk, IfErr, map};
ghost use Rattle.std.specs.Prelude.{MatchOption};
ghost use Rattle.std.specs.List.{AllByRecursion};
ghost use Rattle.sqlite.specs.State.{HasCleanDisk};
ghost use Rattle.edf_time.specs.Civil.{window};
ghost use Rattle.edf_header.specs.Key.{Key, IsKey, key_bytes};
ghost use Rattle.edf_holdings.specs.Holdings.{Holdings};
ghost use Rattle.edf_rows.specs.Rows.{HasRecordingRow};
ghost use Rattle.edf_store.specs.Held.{at, Holds};
ghost use Rattle.edf_store.specs.Summaries.{AreKeysHeld, IsSummary, IsSummaryOf};
ghost use Rattle.edf_store.specs.Call.{AnswersWith, IsUnclean, ReadsOutsideTransaction};
ghost use Rattle.edf_store.specs.Call.{IsRefusedIfBusy};
ghost use Rattle.edf_store.specs.Inside.Settled.{IsAtRest};
ghost use Rattle.edf_store.specs.Inside.Rows.{ReadsOurRows};

use crate::fault::{RowFault, StoreFault};
use crate::ready::{find, ready};
use crate::store::Store;
use edf_header::{Identity, MOST_RECORDS};
use edf_tables::{count_rows, first_start, last_start};
use edf_time::Instant;
use sqlite::Alter;
use std::alloc::Global;

/// A recording has so many data records, which start from `first` to `last`.
#[derive(Clone, Copy, Debug, PartialEq, Eq, Drop)]
pub struct Summary {
    pub records: u32,
    pub first: Instant,
    pub last: Instant,
}

impl<S: Alter> Store<S> {
    /// Returns the identities that have data records, in the order of their bytes.
    ///
    /// # Errors
    /// `Memory` (E41) or `Store` (E42), without a cause where the connection is in a transaction;
    /// or `Foreign` (E45) where the disk returned what was not written.
    pub fn identities(&mut self) -> Result<Vec<Identity>, StoreFault>
        ensures changes { ReadsOutsideTransaction S.Store self.old self.new result }
        ensures refuses { IsRefusedIfBusy S.Store self.old result (IsUnclean S.Store self.new) }
        ensures keys { AnswersWith S.Store self.new result (λ all.
            AreKeysHeld S.Store self.old all.items) }
    {
        ready(self)?;
        Ok(list(self)?)
    }

    /// Returns how many data records an identity has, and their first and last start; `None` where
    /// it has none.
    ///
    /// # Errors
    /// `Memory` (E41) or `Store` (E42), without a cause where the connection is in a transaction;
    /// or `Foreign` (E45) where the disk returned what was not written.
    pub fn summary(&mut self, identity: &Identity) -> Result<Option<Summary>, StoreFault>
        ensures changes { ReadsOutsideTransaction S.Store self.old self.new result }
        ensures refuses { IsRefusedIfBusy S.Store self.old result (IsUnclean S.Store self.new) }
        ensures summary { AnswersWith S.Store self.new result
            (IsSummaryOf S.Store self.old identity.now) }
    {
        ready(self)?;
        let Some(id) = find(self, identity)? else {
            return Ok(None);
        };
        let summary = summary_of(self, id)?;
        Ok(Some(summary))
    }
}

/// Reads the identities that the tables have.
fn list<S: Alter>(store: &mut Store<S>) -> Result<Vec<Identity>, RowFault>
    requires settled { IsAtRest S.Store store.old }
    ensures changes { ReadsOutsideTransaction S.Store store.old store.new result }
    ensures keys { ReadsOurRows S.Store store.new result (λ all.
        AreKeysHeld S.Store store.old all.items) }
{
    let all = edf_tables::identities(&mut store.conn)?;
    identities_in(store.alloc, all)
}

/// Parses the identities of these bytes.
fn identities_in(alloc: Global, all: Vec<Vec<u8>>) -> Result<Vec<Identity>, RowFault>
    ensures read { IfOk result (λ identities.
        map key_bytes identities.items ≡ map (λ b. b.items) all.items) }
    ensures keys { IfOk result (λ identities. AllByRecursion IsKey identities.items) }
    ensures ours { IfErr result (λ e.
        AllByRecursion (λ b. (k : Key) × IsKey k × (b.items ≡ key_bytes k)) all.items →
        e ≢ RowFault.Foreign) }
{
    let mut found = Vec::new(alloc);
    for bytes in &all {
        let identity = Identity::from_bytes(alloc, bytes.as_slice())?;
        found.push(identity)?;
    }
    Ok(found)
}

/// Summarizes a recording that is there.
fn summary_of<S: Alter>(store: &mut Store<S>, id: i64) -> Result<Summary, RowFault>
    requires settled { IsAtRest S.Store store.old }
    requires there { HasCleanDisk (at S.Store store.old) →
        (k : Key) × HasRecordingRow (at S.Store store.old).now.trees id k }
    ensures changes { ReadsOutsideTransaction S.Store store.old store.new result }
    ensures summary { ReadsOurRows S.Store store.new result (λ summary.
        (h : Holdings) (k : Key) → Holds S.Store store.old h →
        HasRecordingRow (at S.Store store.old).now.trees id k → IsSummary (h k) (Some summary)) }
{
    let count = count_rows(&mut store.conn, id)?;
    let first = first_start(&mut store.conn, id)?;
    let last = last_start(&mut store.conn, id)?;
    summary_from(count, first, last)
}

/// Makes a summary of a count, a first start and a last start.
fn summary_from(count: u64, first: Option<i64>, last: Option<i64>) -> Result<Summary, RowFault>
    ensures summary { IfOk result (λ s.
        (s.records ≡ count) × (first ≡ Some (pos s.first)) × (last ≡ Some (pos s.last))) }
    ensures ours { IfErr result (λ e.
        (a b : ℕ) → count ≤ MOST_RECORDS → a < window → b < window → first ≡ Some (pos a) →
        last ≡ Some (pos b) → e ≢ RowFault.Foreign) }
{
    let Ok(records) = u32::try_from(count) else {
        return Err(RowFault::Foreign);
    };
    match (instant_in(first), instant_in(last)) {
        (Some(first), Some(last)) => Ok(Summary {
            records,
            first,
            last,
        }),
        _ => Err(RowFault::Foreign),
    }
}

/// Returns the instant of a cell, if it is one.
pub(crate) fn instant_in(cell: Option<i64>) -> Option<Instant>
    ensures { MatchOption result ((n : ℕ) → n < window → cell ≢ Some (pos n))
        (λ i. cell ≡ Some (pos i)) }
{
    match cell {
        Some(nanos) => match u64::try_from(nanos) {
            Ok(nanos) => Instant::at(nanos),
            Err(_) => None,
        },
        None => None,
    }
}

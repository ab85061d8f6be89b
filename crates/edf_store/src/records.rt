//! A walk yields the data records of one recording, one at a time.

ghost use Rattle.std.specs.Prelude.{◌≡◌, ℕ, ◌+◌, false, None, Some, [], length, OnOk, IfOk};
ghost use Rattle.std.specs.Prelude.{MatchOption};
ghost use Rattle.std.specs.Borrow.{sem, RestsIfErr};
ghost use Rattle.sqlite.specs.State.{HasCleanDisk};
ghost use Rattle.edf_header.specs.Key.{Key};
ghost use Rattle.edf_holdings.specs.Holdings.{Holdings};
ghost use Rattle.edf_store.specs.Held.{at, KeepsHoldings};
ghost use Rattle.edf_store.specs.Call.{AnswersWith, IsRefusedIfBusy};
ghost use Rattle.edf_store.specs.Walk.{IsNextRecord, count_after, IsWalking, HasYielded};
ghost use Rattle.edf_store.specs.Walk.{IsWalkBegun, IsWalkStep};
ghost use Rattle.edf_store.specs.Inside.Rows.{HasWalked, MayWalk, ReadsOurRows};

use crate::cursor::{Cursor, cursor_at_first};
use crate::decode::record_in;
use crate::fault::{RowFault, StoreFault};
use crate::ready::{find, ready};
use crate::store::Store;
use edf_fragment::Record;
use edf_header::Identity;
use edf_rows::start_of;
use edf_tables::page_rows;
use sqlite::{Alter, Error};
use std::collections::VecDeque;

/// Reads the next page of rows where no row is read ahead any more.
fn read_ahead<S: Alter>(
    store: &mut Store<S>,
    recording: i64,
    cursor: &mut Cursor,
) -> Result<(), Error>
    requires ready { MayWalk S.Store store.old (Some recording) cursor.old }
    ensures stays { KeepsHoldings S.Store store.old store.new }
    ensures ahead { OnOk result
        ((h : Holdings) (k : Key) (n : ℕ) →
        HasWalked S.Store store.old (Some recording) cursor.old h k n →
        HasWalked S.Store store.new (Some recording) cursor.new h k n) }
    ensures last { HasCleanDisk (at S.Store store.new) →
        OnOk result ((h : Holdings) (k : Key) (n : ℕ) →
        HasWalked S.Store store.old (Some recording) cursor.old h k n →
        cursor.new.rows.items ≡ [] → n ≡ length (h k)) }
{
    if !cursor.rows.is_empty() {
        return Ok(());
    }
    let rows = page_rows(
        store.alloc,
        &mut store.conn,
        recording,
        cursor.start,
        cursor.limit,
    )?;
    cursor.rows = VecDeque::from_vec(rows);
    Ok(())
}

/// Returns the next data record of a recording, after those that the walk yielded.
pub(crate) fn next_record<S: Alter>(
    store: &mut Store<S>,
    recording: i64,
    cursor: &mut Cursor,
) -> Result<Option<Record>, RowFault>
    requires ready { MayWalk S.Store store.old (Some recording) cursor.old }
    ensures stays { KeepsHoldings S.Store store.old store.new }
    ensures step { ReadsOurRows S.Store store.new result (λ o.
        (h : Holdings) (k : Key) (n : ℕ) →
        HasWalked S.Store store.old (Some recording) cursor.old h k n → IsNextRecord (h k) n o) }
    ensures moved { IfOk result (λ o.
        (h : Holdings) (k : Key) (n : ℕ) →
        HasWalked S.Store store.old (Some recording) cursor.old h k n →
        MatchOption o (HasWalked S.Store store.new None cursor.new h k n)
        (λ _. HasWalked S.Store store.new (Some recording) cursor.new h k (n + 1))) }
{
    read_ahead(store, recording, cursor)?;
    let Some(row) = cursor.rows.pop_front() else {
        return Ok(None);
    };
    let data_record = record_in(store.alloc, row)?;
    cursor.start = start_of(data_record.start());
    Ok(Some(data_record))
}

/// A walk yields the data records of one recording, by their starts. It may be dropped at any of
/// them. It reads ahead: beside the data record that it yielded last, it has at most 64 rows in
/// memory, with 256 KiB of samples, or one row where a data record has more; and annotations.
///
/// `P` is always `Cursor`. It is a parameter, because with a type that owns memory callers couldn't
/// know that the store after the walk is as it was in the walk.
pub struct Records<'store, S: Alter, P: Drop = Cursor> {
    pub(crate) store: &'store mut Store<S>,
    pub(crate) recording: Option<i64>,
    pub(crate) cursor: P,
    pub(crate) failed: bool,
}

impl<S: Alter, P: Drop> Drop for Records<'_, S, P> {
    fn drop(self)
        ensures { self.exit.0.now ≡ self.entry.store.now }
    {
        let Records {
            store: _,
            recording: _,
            cursor: _,
            failed: _,
        } = self;
    }
}

impl<S: Alter> Store<S> {
    ghost use Rattle.edf_store.specs.contracts.store.Store.{the_row};

    /// Begins a walk over the data records of an identity.
    ///
    /// # Errors
    /// `Memory` (E41) or `Store` (E42), without a cause where the connection is in a transaction.
    pub fn records(&mut self, identity: &Identity) -> Result<Records<'_, S>, StoreFault>
        ensures* refused { sem 𝓛
            (RestsIfErr (the_row S.row S.Store) self.entry (λ it. it.store.ghost_name) result
            (KeepsHoldings S.Store self.old)) }
        ensures same_reference { IfOk result (λ it. it.store.ghost_name ≡ self.entry.ghost_name) }
        ensures begun { IfOk result (IsWalkBegun S.Store self.old identity.now) }
        ensures refuses { IsRefusedIfBusy S.Store self.old result ⊥ }
    {
        ready(self)?;
        let recording = find(self, identity)?;
        let cursor = cursor_at_first(self.alloc, identity);
        Ok(Records {
            store: self,
            recording,
            cursor,
            failed: false,
        })
    }
}

impl<S: Alter> Records<'_, S> {
    /// Returns the next data record; `None` after the last, and at every later call.
    ///
    /// # Errors
    /// `Memory` (E41), `Store` (E42), or `Foreign` (E45) where the disk returned what was not
    /// written; and `Failed` at every later call.
    pub fn next(&mut self) -> Result<Option<Record>, StoreFault>
        requires ready { self.old.failed ≡ false → IsWalking S.Store self.old }
        ensures changes { IsWalkStep S.Store self.old self.new result }
        ensures step { AnswersWith S.Store self.new.store.now result (λ o.
            (h : Holdings) (k : Key) (n : ℕ) →
            HasYielded S.Store self.old h k n → IsNextRecord (h k) n o) }
        ensures moved { IfOk result (λ o.
            (h : Holdings) (k : Key) (n : ℕ) →
            HasYielded S.Store self.old h k n → HasYielded S.Store self.new h k (count_after n o)) }
    {
        if self.failed {
            return Err(StoreFault::Failed);
        }
        let Some(recording) = self.recording else {
            return Ok(None);
        };
        let answer = next_record(self.store, recording, &mut self.cursor);
        self.failed = answer.is_err();
        match answer? {
            Some(data_record) => Ok(Some(data_record)),
            None => {
                self.recording = None;
                Ok(None)
            }
        }
    }
}

//! A transaction finds, reads and adds, and is then committed or given up.

ghost use Rattle.std.specs.Prelude.{◌≡◌, ◌≤◌, length, IfOk, IfErr};
ghost use Rattle.edf_field.specs.Number.{duration_of};
ghost use Rattle.edf_header.specs.Key.{Key};
ghost use Rattle.edf_store.specs.Fault.{HasCause};
ghost use Rattle.edf_store.specs.Call.{AnswersWith};
ghost use Rattle.edf_store.specs.Transaction.{IsOf, IsSelectedOrInserted, AreNear, IsNextStartOf};
ghost use Rattle.edf_store.specs.Transaction.{IsCountOf, IsCapacityAnswer, MayAddTo, IsAdded};
ghost use Rattle.edf_store.specs.Transaction.{EachHasRecord};
ghost use Rattle.edf_store.specs.StoreTx.{IsRunning, KeepsTransaction, ReadsInTransaction, Commits};
ghost use Rattle.edf_store.specs.StoreTx.{RollsBack, HasCauseOrIsUnclean};

use crate::adding::{add_record, find_or_make};
use crate::ending::{commit_all, undo};
use crate::fault::StoreFault;
use crate::reading::{self, count_records, records_near};
use crate::store::Store;
use edf_fragment::Record;
use edf_header::Identity;
use edf_time::Instant;
use sqlite::Alter;

/// A transaction found or made this recording. The id has a meaning in that transaction alone.
#[derive(Clone, Copy, Debug, PartialEq, Eq, Drop)]
pub struct RecordingId {
    pub(crate) row: i64,
}

/// A transaction ends by `commit` or `give_up`; where a call of it was refused, by `give_up`. Until
/// then what is held stays, also after a crash.
pub struct StoreTx<'store, S: Alter> {
    pub(crate) store: &'store mut Store<S>,
}

impl<S: Alter> StoreTx<'_, S> {
    /// Finds the identity's recording, or makes it.
    ///
    /// # Errors
    /// `Memory` (E41) or `Store` (E42), and the transaction is to be given up.
    pub fn recording(&mut self, identity: &Identity) -> Result<RecordingId, StoreFault>
        requires running { IsRunning S.Store self.old }
        ensures changes { KeepsTransaction S.Store self.old self.new result }
        ensures row_id { IfOk result (λ id. IsSelectedOrInserted S.Store
            self.old.store.now self.new.store.now identity.now id.row) }
    {
        let row = find_or_make(self.store, identity)?;
        Ok(RecordingId { row })
    }

    /// Returns the data records of a recording whose intervals overlap the one of `duration`, the
    /// recording's, in nanoseconds, that begins at `start`: two at most, by their starts.
    ///
    /// # Errors
    /// `Memory` (E41), `Store` (E42), or `Foreign` (E45) where the disk returned what was not
    /// written, and the transaction is to be given up.
    pub fn near(
        &mut self,
        id: RecordingId,
        start: Instant,
        duration: u64,
    ) -> Result<Vec<Record>, StoreFault>
        requires running { IsRunning S.Store self.old }
        requires recording { (k : Key) × IsOf S.Store self.old.store.now id.row k
            × (duration ≡ duration_of k.duration) }
        ensures changes { ReadsInTransaction S.Store self.old self.new result
            (HasCauseOrIsUnclean S.Store self.new) }
        ensures near { AnswersWith S.Store self.new.store.now result (λ records.
            AreNear S.Store self.old.store.now id.row start records.items) }
        ensures two { AnswersWith S.Store self.new.store.now result
            (λ records. length records.items ≤ 2) }
    {
        Ok(records_near(self.store, id.row, start, duration)?)
    }

    /// Returns the first start of a recording's data records that is `from` or later, if there is
    /// one. It reads no data record.
    ///
    /// # Errors
    /// `Memory` (E41), `Store` (E42), or `Foreign` (E45) where the disk returned what was not
    /// written, and the transaction is to be given up.
    pub fn next_start(
        &mut self,
        id: RecordingId,
        from: Instant,
    ) -> Result<Option<Instant>, StoreFault>
        requires running { IsRunning S.Store self.old }
        requires recording { (k : Key) × IsOf S.Store self.old.store.now id.row k }
        ensures changes { ReadsInTransaction S.Store self.old self.new result
            (HasCauseOrIsUnclean S.Store self.new) }
        ensures next { AnswersWith S.Store self.new.store.now result
            (IsNextStartOf S.Store self.old.store.now id.row from) }
    {
        Ok(reading::next_start(self.store, id.row, from)?)
    }

    /// Counts the data records of a recording.
    ///
    /// # Errors
    /// `Memory` (E41) or `Store` (E42), and the transaction is to be given up.
    pub fn count(&mut self, id: RecordingId) -> Result<u32, StoreFault>
        requires running { IsRunning S.Store self.old }
        requires recording { (k : Key) × IsOf S.Store self.old.store.now id.row k }
        ensures changes { ReadsInTransaction S.Store self.old self.new result HasCause }
        ensures count { AnswersWith S.Store self.new.store.now result
            (IsCountOf S.Store self.old.store.now id.row) }
    {
        Ok(count_records(self.store, id.row)?)
    }

    /// Is true where a recording has capacity for `more` data records below the cap. `duration` is
    /// the recording's, in nanoseconds.
    ///
    /// Data records do not overlap, so there is capacity where those that are held lie within less
    /// time than the cap without `more` takes. Only where that doesn't decide are they counted.
    ///
    /// # Errors
    /// `Memory` (E41) or `Store` (E42), and the transaction is to be given up.
    pub fn has_capacity(
        &mut self,
        id: RecordingId,
        duration: u64,
        more: u32,
    ) -> Result<bool, StoreFault>
        requires running { IsRunning S.Store self.old }
        requires recording { (k : Key) × IsOf S.Store self.old.store.now id.row k
            × (duration ≡ duration_of k.duration) }
        ensures changes { ReadsInTransaction S.Store self.old self.new result HasCause }
        ensures spare { AnswersWith S.Store self.new.store.now result
            (IsCapacityAnswer S.Store self.old.store.now id.row more) }
    {
        Ok(reading::has_capacity(self.store, id.row, duration, more)?)
    }

    /// Adds a data record to a recording, which has none near it and fewer than the cap. The first
    /// of a recording is one with which it may start: before 2085 where its identity has no date.
    ///
    /// # Errors
    /// `Memory` (E41) or `Store` (E42), and the transaction is to be given up.
    pub fn add(&mut self, id: RecordingId, data_record: &Record) -> Result<(), StoreFault>
        requires running { IsRunning S.Store self.old }
        requires spare { MayAddTo S.Store self.old.store.now id.row data_record.now }
        ensures changes { KeepsTransaction S.Store self.old self.new result }
        ensures added { IfOk result (λ _.
            IsAdded S.Store self.old.store.now self.new.store.now id.row data_record.now) }
    {
        Ok(add_record(self.store, id.row, data_record)?)
    }

    /// Commits the transaction: what it sees is then what is held.
    ///
    /// # Errors
    /// `Memory` (E41) or `Store` (E42): what was held before stays, and the transaction is over.
    /// After a crash that is held, or all that the transaction saw, refused or not.
    pub fn commit(self) -> Result<(), StoreFault>
        requires running { IsRunning S.Store self }
        requires whole { EachHasRecord S.Store self.store.now }
        ensures commits { Commits S.Store self.entry.store.now self.exit.0.now result }
        ensures why { IfErr result HasCause }
    {
        let StoreTx { store } = self;
        commit_all(store)?;
        Ok(())
    }

    /// Rolls the transaction back: what was held when it began stays, also where this is refused.
    ///
    /// # Errors
    /// `Memory` (E41) or `Store` (E42).
    pub fn give_up(self) -> Result<(), StoreFault>
        ensures gives_up { RollsBack S.Store self.entry.store.now self.exit.0.now result }
        ensures why { IfErr result HasCause }
    {
        let StoreTx { store } = self;
        undo(store)?;
        Ok(())
    }
}

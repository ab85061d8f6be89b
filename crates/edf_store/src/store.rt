//! A store is opened over a connection, and begins transactions.

ghost use Rattle.std.specs.Prelude.{◌≡◌, ◌≤◌, false, Err, IfOk, IfErr};
ghost use Rattle.std.specs.Borrow.{sem, RestsIfErr};
ghost use Rattle.sqlite.specs.Held.{state};
ghost use Rattle.sqlite.specs.State.{IsLive};
ghost use Rattle.edf_tables.specs.Made.{IsOurs};
ghost use Rattle.edf_rows.specs.File.{IsForeignFile};
ghost use Rattle.edf_store.specs.Held.{KeepsHoldings, at};
ghost use Rattle.edf_store.specs.Call.{IsRefusedIfBusy};
ghost use Rattle.edf_store.specs.StoreTx.{IsBegun};
ghost use Rattle.edf_store.specs.Open.{IsOpened, IsReturned, IsDropped, DiskStaysClean};

use crate::ending::begin_all;
use crate::fault::StoreFault;
use crate::transaction::StoreTx;
use edf_header::MOST_RECORDS;
use edf_rows::audit;
use sqlite::{Alter, Connection};
use std::alloc::Global;
use std::marker::Model;

/// A store has recordings in the two tables of a connection, each with at most `cap` data records.
///
/// A call that reads or adds data records is refused by `Store` (E42) without a cause where the
/// connection is still in the transaction of a refused call; then the file is to be opened again.
#[derive(Drop)]
pub struct Store<S: Alter> {
    pub(crate) alloc: Global,
    pub(crate) conn: Connection<S>,
    pub(crate) cap: u32,
}

impl<S: Alter> Model for Store<S> {
    ghost use Rattle.edf_store.specs.Held.{StoreModel, store_model_code, IsSoundStore};
    ghost use Rattle.sqlite.specs.Held.{state};

    ghost Value = { StoreModel S };

    ghost coded = { store_model_code S.code };

    ghost view = { λ s. record { connection = s.conn; cap = s.cap } };

    ghost invariant = { λ s. IsSoundStore s.cap (state S.Store s.conn) };
}

impl<S: Alter> Store<S> {
    ghost use Rattle.edf_store.specs.contracts.store.Store.{the_row};

    /// Returns how many data records a recording may have.
    pub fn cap(&self) -> u32
        ensures value { result ≡ self.now.cap }
        ensures bound { (1 ≤ result) × (result ≤ MOST_RECORDS) }
    {
        self.cap
    }

    /// Is true where the connection is in a transaction, as after some refusals. Then every call
    /// that begins one is refused.
    pub fn is_busy(&self) -> bool
        ensures { result ≡ (at S.Store self.now).in_transaction }
    {
        !self.conn.is_autocommit()
    }

    /// Returns the connection, as it is.
    pub fn into_connection(self) -> Connection<S>
        ensures value { result ≡ self.connection }
        ensures live { IsLive (state S.Store result) }
    {
        let Store {
            alloc: _,
            conn,
            cap: _,
        } = self;
        // Its rows obey its schema, as those of any connection do.
        let _ = conn.schema();
        conn
    }

    /// Begins a transaction, which sees what is held.
    ///
    /// # Errors
    /// `Memory` (E41) or `Store` (E42), without a cause in a transaction; what is held stays.
    pub fn transaction(&mut self) -> Result<StoreTx<'_, S>, StoreFault>
        ensures* refused { sem 𝓛
            (RestsIfErr (the_row S.row S.Store) self.entry (λ tx. tx.store.ghost_name) result
            (KeepsHoldings S.Store self.old)) }
        ensures same_reference { IfOk result (λ tx. tx.store.ghost_name ≡ self.entry.ghost_name) }
        ensures begun { IfOk result (IsBegun S.Store self.old) }
        ensures refuses { IsRefusedIfBusy S.Store self.old result ⊥ }
    {
        begin_all(self)?;
        Ok(StoreTx { store: self })
    }
}

impl<S: Alter + Drop> Store<S> {
    /// Opens the store of a connection that is in no transaction, and makes missing tables. Every
    /// row is read once.
    ///
    /// No recording has, or will have, more than `cap` data records; `cap` is at least 1, and at
    /// most as many as a file may have.
    ///
    /// # Errors
    /// `Foreign` (E45) where the file's schema is not a store's, or submissions can't make its rows
    /// under this cap; else `Memory` (E41) or `Store` (E42), with its cause. A store's file is
    /// empty, has the first table alone, or has both tables first, in their order; what comes after
    /// both has trees of its own and is no index and no trigger on them. The connection comes back
    /// with the refusal, so that its file can be closed: one of another schema as it was, and every
    /// other with the rows that it had, where a missing table may have been made.
    pub fn open_or_return(
        alloc: Global,
        mut conn: Connection<S>,
        cap: u32,
    ) -> Result<Store<S>, (StoreFault, Connection<S>)>
        requires cap_from { 1 ≤ cap }
        requires cap_to { cap ≤ MOST_RECORDS }
        requires autocommit { (state S.Store conn).in_transaction ≡ false }
        ensures cap { IfOk result (λ store. store.cap ≡ cap) }
        ensures opened { IfOk result (IsOpened S.Store conn) }
        ensures live { IfOk result (λ store. IsLive (at S.Store store)) }
        ensures given_back { IfErr result (λ e. IsReturned S.Store conn cap e.0 e.1) }
        ensures other { ¬ IsOurs (state S.Store conn).now →
            result ≡ Err (StoreFault.Foreign, conn) }
    {
        match audit(alloc, &mut conn, cap) {
            Ok(true) => Ok(Store { alloc, conn, cap }),
            Ok(false) => Err((StoreFault::Foreign, conn)),
            Err(error) => Err((StoreFault::from(error), conn)),
        }
    }

    /// Opens a store as [`Store::open_or_return`], but drops the connection of a refused one.
    ///
    /// # Errors
    /// Those of `open_or_return`, without the connection.
    pub fn open(alloc: Global, conn: Connection<S>, cap: u32) -> Result<Store<S>, StoreFault>
        requires cap_from { 1 ≤ cap }
        requires cap_to { cap ≤ MOST_RECORDS }
        requires autocommit { (state S.Store conn).in_transaction ≡ false }
        ensures cap { IfOk result (λ store. store.cap ≡ cap) }
        ensures opened { IfOk result (IsOpened S.Store conn) }
        ensures given_up { IfErr result (IsDropped S.Store conn cap) }
        ensures other { ¬ IsOurs (state S.Store conn).now → result ≡ Err StoreFault.Foreign }
        ensures foreign { DiskStaysClean S.Store conn → result ≡ Err StoreFault.Foreign →
            IsForeignFile cap (state S.Store conn).now }
    {
        match Store::open_or_return(alloc, conn, cap) {
            Ok(store) => Ok(store),
            Err((fault, _)) => Err(fault),
        }
    }
}

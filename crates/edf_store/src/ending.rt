//! A transaction begins and ends.

ghost use Rattle.edf_store.specs.Transaction.{SeesHoldings, EachHasRecord};
ghost use Rattle.edf_store.specs.Call.{IsRefusedIfBusy};
ghost use Rattle.edf_store.specs.StoreTx.{Commits, RollsBack};
ghost use Rattle.edf_store.specs.Inside.Rows.{Begins};

use crate::fault::StoreFault;
use crate::store::Store;
use edf_tables::{begin, commit, roll_back};
use sqlite::{Alter, Error};

/// Begins a transaction, where the connection is in none.
pub(crate) fn begin_all<S: Alter>(store: &mut Store<S>) -> Result<(), StoreFault>
    ensures begun { Begins S.Store store.old store.new result }
    ensures refuses { IsRefusedIfBusy S.Store store.old result ⊥ }
{
    if !store.conn.is_autocommit() {
        return Err(StoreFault::Store(None));
    }
    begin(&mut store.conn)?;
    Ok(())
}

/// Commits the transaction: what it saw is then what is held.
pub(crate) fn commit_all<S: Alter>(store: &mut Store<S>) -> Result<(), Error>
    requires sees { SeesHoldings S.Store store.old }
    requires whole { EachHasRecord S.Store store.old }
    ensures { Commits S.Store store.old store.new result }
{
    commit(&mut store.conn)?;
    Ok(())
}

/// Rolls the transaction back, if one is open.
pub(crate) fn undo<S: Alter>(store: &mut Store<S>) -> Result<(), Error>
    ensures { RollsBack S.Store store.old store.new result }
{
    roll_back(&mut store.conn)?;
    Ok(())
}

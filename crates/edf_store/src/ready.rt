//! A read outside a transaction begins with these calls.

ghost use Rattle.edf_header.specs.Key.{IsKey};
ghost use Rattle.edf_holdings.specs.Holdings.{Holdings};
ghost use Rattle.edf_rows.specs.Rows.{RepresentCommitted};
ghost use Rattle.edf_store.specs.Held.{at};
ghost use Rattle.edf_store.specs.Inside.Settled.{IsSelectedIn, IsAtRest, Settles};
ghost use Rattle.edf_store.specs.Call.{AnswersWith, IsRefusedIfBusy};
ghost use Rattle.edf_tables.specs.Statement.{OnlyReads, KeepsCommitted, IsCrashSafe};

use crate::fault::StoreFault;
use crate::store::Store;
use edf_header::Identity;
use edf_tables::select_recording;
use sqlite::{Alter, Connection, Error};

/// Runs an empty statement, which succeeds on an open connection alone.
fn run_nothing<S: Alter>(conn: &mut Connection<S>) -> Result<(), Error>
    ensures same { OnlyReads S.Store conn.old conn.new result }
    ensures committed { KeepsCommitted S.Store conn.old conn.new }
    ensures survives { IsCrashSafe S.Store conn.old conn.new }
{
    conn.execute("", &[])?;
    Ok(())
}

/// Succeeds where the connection is open and in no transaction: its tables are what is held.
pub(crate) fn ready<S: Alter>(store: &mut Store<S>) -> Result<(), StoreFault>
    ensures settles { Settles S.Store store.old store.new result }
    ensures refuses { IsRefusedIfBusy S.Store store.old result ⊥ }
{
    if !store.conn.is_autocommit() {
        return Err(StoreFault::Store(None));
    }
    run_nothing(&mut store.conn)?;
    Ok(())
}

/// Returns the id of the identity's recording, if it has one.
pub(crate) fn find<S: Alter>(
    store: &mut Store<S>,
    identity: &Identity,
) -> Result<Option<i64>, Error>
    requires settled { IsAtRest S.Store store.old }
    ensures key { IsKey identity.now }
    ensures settles { Settles S.Store store.old store.new result }
    ensures answer { AnswersWith S.Store store.new result (λ id.
        (h : Holdings) → RepresentCommitted store.new.cap (at S.Store store.new).now.trees h →
        IsSelectedIn (at S.Store store.new) identity.now h id) }
{
    let bytes = identity.to_bytes(store.alloc)?;
    let id = select_recording(&mut store.conn, bytes.as_slice())?;
    Ok(id)
}

//! A transaction adds recordings and data records.

ghost use Rattle.std.specs.Prelude.{IfOk};
ghost use Rattle.edf_store.specs.Held.{KeepsHoldings};
ghost use Rattle.edf_store.specs.Transaction.{SeesHoldings, IsSelectedOrInserted, MayAddTo};
ghost use Rattle.edf_store.specs.Transaction.{IsAdded};

use crate::store::Store;
use edf_fragment::Record;
use edf_header::Identity;
use edf_rows::{block_of, start_of};
use edf_tables::{insert_record, insert_recording, select_recording};
use sqlite::{Alter, Error};

/// Returns the id of the identity's recording, which is made where it is missing.
pub(crate) fn find_or_make<S: Alter>(
    store: &mut Store<S>,
    identity: &Identity,
) -> Result<i64, Error>
    requires sees { SeesHoldings S.Store store.old }
    ensures stays { KeepsHoldings S.Store store.old store.new }
    ensures row_id { IfOk result (IsSelectedOrInserted S.Store store.old store.new identity.now) }
{
    let bytes = identity.to_bytes(store.alloc)?;
    if let Some(id) = select_recording(&mut store.conn, bytes.as_slice())? {
        return Ok(id);
    }
    let id = insert_recording(&mut store.conn, bytes.as_slice())?;
    Ok(id)
}

/// Adds a data record to the recording of this id, which may take it.
pub(crate) fn add_record<S: Alter>(
    store: &mut Store<S>,
    id: i64,
    data_record: &Record,
) -> Result<(), Error>
    requires sees { SeesHoldings S.Store store.old }
    requires spare { MayAddTo S.Store store.old id data_record.now }
    ensures stays { KeepsHoldings S.Store store.old store.new }
    ensures added { IfOk result (λ _. IsAdded S.Store store.old store.new id data_record.now) }
{
    let block = block_of(store.alloc, data_record)?;
    let start = start_of(data_record.start());
    insert_record(
        &mut store.conn,
        id,
        start,
        data_record.samples(),
        block.as_slice(),
    )?;
    Ok(())
}

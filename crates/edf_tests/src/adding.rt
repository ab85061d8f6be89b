//! Data records added, and looked for with room for more, each in a transaction of its own.

ghost use Rattle.std.specs.Prelude.{◌≡◌, IfOk};
ghost use Rattle.edf_store.specs.Transaction.{IsOf, EachHasRecord};
ghost use Rattle.edf_store.specs.StoreTx.{IsRunning};

use edf_fragment::Record;
use edf_header::Identity;
use edf_store::{RecordingId, Store, StoreFault, StoreTx};
use edf_time::Instant;
use sqlite::Alter;

/// What a transaction sees of a recording before a data record is added to it, and after.
#[derive(Drop)]
pub(crate) struct Seen {
    pub(crate) before: u32,
    pub(crate) after: u32,
    /// The data records that meet the interval that begins half a second before the one that was
    /// added.
    pub(crate) near: Vec<Record>,
}

/// Adds a data record of the identity, near which there is none, to its recording, which is made
/// where it is missing.
fn fill<S: Alter>(
    tx: &mut StoreTx<'_, S>,
    identity: &Identity,
    data_record: &Record,
    cap: u32,
) -> Result<Seen, StoreFault>
    requires running { IsRunning S.Store tx.old }
    requires whole { EachHasRecord S.Store tx.old.store.now }
    requires cap { cap ≡ tx.old.store.now.cap }
    ensures same_reference { tx.new.store.ghost_name ≡ tx.old.store.ghost_name }
    ensures running { IfOk result (λ _. IsRunning S.Store tx.new) }
    ensures whole { IfOk result (λ _. EachHasRecord S.Store tx.new.store.now) }
{
    let start = data_record.start();
    let id = tx.recording(identity)?;
    let before = tx.count(id)?;
    let near = tx.near(id, start, identity.duration())?;
    if near.len() != 0 || before >= cap {
        return Err(StoreFault::Foreign);
    }
    if data_record.samples().len() != identity.ordinary_bytes() {
        return Err(StoreFault::Foreign);
    }
    if !identity.may_start(start) {
        return Err(StoreFault::Foreign);
    }
    tx.add(id, data_record)?;
    look(tx, id, identity, start, before)
}

/// What the transaction sees of the recording now.
fn look<S: Alter>(
    tx: &mut StoreTx<'_, S>,
    id: RecordingId,
    identity: &Identity,
    start: Instant,
    before: u32,
) -> Result<Seen, StoreFault>
    requires running { IsRunning S.Store tx.old }
    requires whole { EachHasRecord S.Store tx.old.store.now }
    requires recording { IsOf S.Store tx.old.store.now id.row identity.now }
    ensures same_reference { tx.new.store.ghost_name ≡ tx.old.store.ghost_name }
    ensures running { IfOk result (λ _. IsRunning S.Store tx.new) }
    ensures whole { IfOk result (λ _. EachHasRecord S.Store tx.new.store.now) }
{
    let after = tx.count(id)?;
    let Some(earlier) = start.after(-500_000_000) else {
        return Err(StoreFault::Foreign);
    };
    let near = tx.near(id, earlier, identity.duration())?;
    Ok(Seen {
        before,
        after,
        near,
    })
}

/// Adds a data record of the identity, near which there is none, in a transaction that is committed
/// or given up.
///
/// # Errors
/// The store's, and `Foreign` where the data record may not be added.
pub(crate) fn put<S: Alter>(
    store: &mut Store<S>,
    identity: &Identity,
    data_record: &Record,
    keeps: bool,
) -> Result<Seen, StoreFault> {
    let cap = store.cap();
    let mut tx = store.transaction()?;
    match fill(&mut tx, identity, data_record, cap) {
        Ok(seen) => {
            if keeps {
                tx.commit()?;
            } else {
                tx.give_up()?;
            }
            Ok(seen)
        }
        Err(fault) => {
            tx.give_up()?;
            Err(fault)
        }
    }
}

/// What a transaction answers of a recording.
#[derive(Drop)]
pub(crate) struct Found {
    /// Whether there is room for so many more data records.
    pub(crate) has_capacity: bool,
    /// The first start of a data record that is at an instant or later.
    pub(crate) next: Option<Instant>,
    /// The data records that meet the interval of the identity's duration from that instant on.
    pub(crate) near: Vec<Record>,
}

/// Asks of the identity's recording, which is made where it is missing, in a transaction that is
/// given up.
///
/// # Errors
/// The store's.
pub(crate) fn find<S: Alter>(
    store: &mut Store<S>,
    identity: &Identity,
    from: Instant,
    more: u32,
) -> Result<Found, StoreFault> {
    let mut tx = store.transaction()?;
    let found = ask(&mut tx, identity, from, more);
    tx.give_up()?;
    found
}

fn ask<S: Alter>(
    tx: &mut StoreTx<'_, S>,
    identity: &Identity,
    from: Instant,
    more: u32,
) -> Result<Found, StoreFault>
    requires running { IsRunning S.Store tx.old }
    ensures same_reference { tx.new.store.ghost_name ≡ tx.old.store.ghost_name }
{
    let id = tx.recording(identity)?;
    let duration = identity.duration();
    let has_capacity = tx.has_capacity(id, duration, more)?;
    let next = tx.next_start(id, from)?;
    let near = tx.near(id, from, duration)?;
    Ok(Found {
        has_capacity,
        next,
        near,
    })
}

//! A whole fragment inside a transaction.

ghost use Rattle.std.specs.Prelude.{◌≡◌, IfOk, IfErr, IfSome};
ghost use Rattle.edf_header.specs.Header.{most_records};
ghost use Rattle.edf_store.specs.Fault.{HasCause};
ghost use Rattle.edf_store.specs.Transaction.{EachHasRecord};
ghost use Rattle.edf_store.specs.StoreTx.{IsRunning, ReadsInTransaction, KeepsTransaction};
ghost use Rattle.edf_fragment.specs.Call.{input_state};
ghost use Rattle.edf_intake.specs.Inside.Transaction.{IsRunningFor, KeepsRunning};
ghost use Rattle.edf_intake.specs.Inside.Verdict.{IsSpareInTransaction};
ghost use Rattle.edf_intake.specs.Inside.Taken.{IsDestination, IsAcceptedInTransaction, StopsWith};

use crate::answer::{Receipt, Stop, conflict};
use crate::data_records::{Destination, Findings, take_records};
use edf_fragment::{Input, OpenFragment};
use edf_header::Identity;
use edf_store::{RecordingId, StoreFault, StoreTx};
use sqlite::Alter;
use std::alloc::Global;

/// Returns the number of data records, if it is known and the recording may get so many more.
fn known_spare<S: Alter>(
    transaction: &mut StoreTx<'_, S>,
    id: RecordingId,
    identity: &Identity,
    count: Option<u32>,
) -> Result<Option<u32>, StoreFault>
    requires running { IsRunningFor S.Store transaction.old id.row identity.now }
    ensures changes { ReadsInTransaction S.Store transaction.old transaction.new result HasCause }
    ensures spare { IfOk result (λ spare. IfSome spare
        (IsSpareInTransaction S.Store transaction.new identity.now (most_records count))) }
{
    let Some(count) = count else {
        return Ok(None);
    };
    let fits = transaction.has_capacity(id, identity.duration(), count)?;
    if fits { Ok(Some(count)) } else { Ok(None) }
}

/// Finds or adds the recording of an identity. Its spare is `count` if it may get so many more, and
/// else all that the cap allows.
fn find_destination<S: Alter>(
    transaction: &mut StoreTx<'_, S>,
    cap: u32,
    identity: &Identity,
    count: Option<u32>,
) -> Result<Destination, StoreFault>
    requires running { IsRunning S.Store transaction.old }
    requires cap { cap ≡ transaction.old.store.now.cap }
    // A recording that is added holds nothing yet, so the transaction sees the same holdings.
    ensures changes { KeepsTransaction S.Store transaction.old transaction.new result }
    ensures is_destination { IfOk result (IsDestination S.Store transaction.old transaction.new
        identity.now (most_records count)) }
{
    let id = transaction.recording(identity)?;
    if let Some(spare) = known_spare(transaction, id, identity, count)? {
        return Ok(Destination { id, spare });
    }
    let held = transaction.count(id)?;
    let spare = cap.saturating_sub(held);
    Ok(Destination { id, spare })
}

/// Reads a fragment to its end, and adds its new data records until one clashes or is too many.
pub(crate) fn take_fragment<S: Alter, R: Input>(
    alloc: Global,
    transaction: &mut StoreTx<'_, S>,
    cap: u32,
    input: &mut R,
) -> Result<Receipt, Stop>
    requires running { IsRunning S.Store transaction.old }
    // A commit requires this, so it must also be true after a fragment is accepted.
    requires whole { EachHasRecord S.Store transaction.old.store.now }
    // The caller reads the cap before the transaction borrows the store.
    requires cap { cap ≡ transaction.old.store.now.cap }
    ensures changes { KeepsRunning S.Store transaction.old transaction.new result }
    ensures accepted { IfOk result (IsAcceptedInTransaction S.Store transaction.old transaction.new
        (input_state R.Input input.old) (input_state R.Input input.new)) }
    ensures stopped { IfErr result (StopsWith S.Store transaction.old transaction.new
        (input_state R.Input input.old) (input_state R.Input input.new)) }
{
    let mut fragment = OpenFragment::read(alloc, input)?;
    let header = fragment.header();
    let destination = find_destination(transaction, cap, header.identity(), header.count())?;
    let findings = take_records(transaction, destination, &mut fragment, input)?;
    let identity = fragment.into_header().into_identity();
    let Findings { new, known, .. } = findings;
    match conflict(destination, cap, findings) {
        None => Ok(Receipt {
            identity,
            new,
            known,
        }),
        Some(refusal) => Err(Stop::Input(refusal)),
    }
}

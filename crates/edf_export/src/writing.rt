//! The second walk over a recording, which writes its file data record by data record.

ghost use Rattle.std.specs.Prelude.{◌≡◌, false, MatchResult};
ghost use Rattle.sqlite.specs.State.{HasCleanDisk};
ghost use Rattle.edf_header.specs.Key.{Key, MayStart};
ghost use Rattle.edf_holdings.specs.Holdings.{Holdings};
ghost use Rattle.edf_store.specs.Call.{IsBusy};
ghost use Rattle.edf_store.specs.Held.{at, Holds};
ghost use Rattle.edf_store.specs.Walk.{HasYielded, IsWalking};
ghost use Rattle.edf_canonical.specs.Measure.{planned_text};
ghost use Rattle.edf_export.specs.Export.{IsExported, IsNotExported};
ghost use Rattle.edf_export.specs.Export.{IsOutsideTransactionAfterExport, KeepsStore};
ghost use Rattle.edf_export.specs.Inside.Calls.{EndsWalk, WritesOnAnyDisk};
ghost use Rattle.edf_export.specs.Inside.Walks.{IsPlanOf, IsSentOut};

use crate::fault::ExportFault;
use crate::walked::Walked;
use edf_canonical::{FilePlan, Measure, send};
use edf_fragment::Output;
use edf_header::{Identity, write_header};
use edf_store::{Records, Store};
use sqlite::Alter;
use std::alloc::Global;

/// Writes a header and then the data records of a walk.
fn send_walk<S: Alter, W: Output>(
    alloc: Global,
    walk: &mut Records<'_, S>,
    out: &mut W,
    header: &[u8],
    plan: Measure,
) -> Result<(), ExportFault>
    requires ready { (walk.old.failed ≡ false) × IsWalking S.Store walk.old }
    ensures changes { EndsWalk S.Store walk.old walk.new
        (λ s. IsOutsideTransactionAfterExport s result) }
    ensures sent { HasCleanDisk (at S.Store walk.new.store.now) → (h : Holdings) (k : Key) →
        HasYielded S.Store walk.old h k 0 →
        IsPlanOf k (h k) plan → IsSentOut (W.contents out.old) (W.contents out.new)
        (planned_text header.now plan (h k)) result }
    ensures counted { WritesOnAnyDisk ⊥ (W.failures out.old) (W.failures out.new) result }
{
    let mut source = Walked;
    let mut nothing = ();
    let file = FilePlan {
        header,
        measure: plan,
    };
    send(alloc, &mut source, walk, &mut nothing, &file, out)?;
    Ok(())
}

/// Writes a header and then the data records that an identity holds.
fn send_recording<S: Alter, W: Output>(
    alloc: Global,
    store: &mut Store<S>,
    identity: &Identity,
    out: &mut W,
    header: &[u8],
    plan: Measure,
) -> Result<(), ExportFault>
    ensures changes { KeepsStore S.Store store.old store.new result }
    ensures sent { HasCleanDisk (at S.Store store.new) → (h : Holdings) →
        Holds S.Store store.old h → IsPlanOf identity.now (h identity.now) plan →
        IsSentOut (W.contents out.old) (W.contents out.new)
        (planned_text header.now plan (h identity.now)) result }
    ensures counted { WritesOnAnyDisk (IsBusy S.Store store.old)
        (W.failures out.old) (W.failures out.new) result }
{
    let mut walk = store.records(identity)?;
    send_walk(alloc, &mut walk, out, header, plan)
}

/// Writes the planned file, and returns its length.
pub(crate) fn write_planned<S: Alter, W: Output>(
    alloc: Global,
    store: &mut Store<S>,
    identity: &Identity,
    out: &mut W,
    plan: Measure,
) -> Result<u64, ExportFault>
    requires may_start { MayStart identity.now plan.first }
    requires idle { HasCleanDisk (at S.Store store.old) →
        (at S.Store store.old).in_transaction ≡ false }
    ensures changes { KeepsStore S.Store store.old store.new result }
    ensures written { HasCleanDisk (at S.Store store.new) → (h : Holdings) →
        Holds S.Store store.old h → IsPlanOf identity.now (h identity.now) plan →
        MatchResult result
        (IsExported (W.contents out.old) (W.contents out.new) identity.now (h identity.now))
        (IsNotExported (W.contents out.old) (W.contents out.new) identity.now (h identity.now)) }
    ensures counted { WritesOnAnyDisk (IsBusy S.Store store.old)
        (W.failures out.old) (W.failures out.new) result }
{
    let Measure {
        first,
        records,
        block_samples,
    } = plan;
    let Ok(header) = write_header(alloc, identity, first, records, block_samples) else {
        return Err(ExportFault::Memory);
    };
    send_recording(alloc, store, identity, out, header.as_slice(), plan)?;
    let record_bytes = identity.ordinary_bytes() + 2 * block_samples as usize;
    Ok(header.len() as u64 + records as u64 * record_bytes as u64)
}

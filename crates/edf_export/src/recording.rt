//! The export of one recording.

ghost use Rattle.std.specs.Prelude.{MatchResult};
ghost use Rattle.sqlite.specs.State.{HasCleanDisk};
ghost use Rattle.edf_holdings.specs.Holdings.{Holdings};
ghost use Rattle.edf_store.specs.Held.{at, Holds};
ghost use Rattle.edf_export.specs.Export.{IsExported, IsNotExported, KeepsStore};
ghost use Rattle.edf_export.specs.Export.{ReportsWriteFailures, ReportsBusy};

use crate::fault::ExportFault;
use crate::planning::plan_file;
use crate::writing::write_planned;
use edf_fragment::Output;
use edf_header::Identity;
use edf_store::Store;
use sqlite::Alter;
use std::alloc::Global;

/// Writes the canonical EDF+D file of what is held under an identity, and returns its length.
///
/// Its data records rise by start, and onsets count from the second in which the first begins. One
/// is in memory at a time, beside a buffer of 256 KiB. The store is only read. The writer is not
/// flushed.
///
/// # Errors
/// - `NoRecording` (E44): nothing is held under the identity, and nothing was written.
/// - `Store`: the store refused with E41, E42 (without a cause if a transaction was open), or E45
///   (if the disk returned what was not written).
/// - `Memory` (E41): memory ran out. `Write` (E43): a write failed, or took none of some bytes.
///
/// After the last three a prefix of the file may have been written.
pub fn export<S: Alter, W: Output>(
    alloc: Global,
    store: &mut Store<S>,
    identity: &Identity,
    out: &mut W,
) -> Result<u64, ExportFault>
    ensures changes { KeepsStore S.Store store.old store.new result }
    // The file is written, or a prefix of it, where the disk returned what was written.
    ensures answered { HasCleanDisk (at S.Store store.new) → (h : Holdings) →
        Holds S.Store store.old h →
        MatchResult result
        (IsExported (W.contents out.old) (W.contents out.new) identity.now (h identity.now))
        (IsNotExported (W.contents out.old) (W.contents out.new) identity.now (h identity.now)) }
    // This is true on any disk.
    ensures truly { ReportsWriteFailures (W.contents out.old) (W.contents out.new)
        (W.failures out.old) (W.failures out.new) result }
    ensures busy { ReportsBusy S.Store store.old store.new result }
{
    let Some(plan) = plan_file(store, identity)? else {
        return Err(ExportFault::NoRecording);
    };
    write_planned(alloc, store, identity, out, plan)
}

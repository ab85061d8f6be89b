//! `list`: a line for each recording.

ghost use Rattle.std.specs.Prelude.{◌≡◌, ◌≢◌, [], ℕ, Some, List, true, IfOk, IfErr, MatchResult};
ghost use Rattle.std.specs.Prelude.{length};
ghost use Rattle.sqlite.specs.State.{HasCleanDisk};
ghost use Rattle.edf_fragment.specs.Fragment.{DataRecord};
ghost use Rattle.edf_holdings.specs.Holdings.{Holdings};
ghost use Rattle.edf_store.specs.Fault.{IsStoreRefusal};
ghost use Rattle.edf_store.specs.Held.{at, Holds, KeepsHoldings};
ghost use Rattle.edf_store.specs.Summaries.{IsSummary};
ghost use Rattle.edf_command.specs.Lines.{list_line, first_list_lines, list_refused_line};
ghost use Rattle.edf_cli.specs.Output.{output_change, Gets, IsLineWritten, AreLinesWritten};
ghost use Rattle.edf_cli.specs.Output.{IsWritten};
ghost use Rattle.edf_cli.specs.Text.{IsInstantFormat};
ghost use Rattle.edf_command.specs.Listing.{AreHeldBy, AreRecordingsListed};

use edf_cli::{Status, concat, print_refused, put_line, spelled};
use edf_fragment::Output;
use edf_header::Identity;
use edf_store::{Store, StoreFault, Summary};
use sqlite::Alter;
use std::alloc::{AllocError, Global};

/// Returns the line of a recording.
fn list_line(
    alloc: Global,
    place: usize,
    identity: &Identity,
    summary: &Summary,
) -> Result<Vec<u8>, AllocError>
    ensures { IfOk result (λ r. (spell : ℕ → List ℕ) (records : List DataRecord) →
        IsInstantFormat spell → IsSummary records (Some summary.now) →
        r.items ≡ list_line spell place identity.now records) }
{
    let place = format!(in alloc; "{place}")?;
    let records = format!(in alloc; "{}", summary.records)?;
    let first = spelled(alloc, summary.first)?;
    let parts = [
        place.as_bytes(),
        b" records=",
        records.as_bytes(),
        b" first=",
        first.as_slice(),
        b" patient=",
        identity.patient_code(),
        b" investigation=",
        identity.investigation_code(),
        b"\n",
    ];
    concat(alloc, &parts)
}

/// Writes the line of a recording that is held.
fn put_recording<S: Alter, O: Output>(
    alloc: Global,
    store: &mut Store<S>,
    out: &mut O,
    place: usize,
    identity: &Identity,
) -> Result<bool, StoreFault>
    ensures stays { KeepsHoldings S.Store store.old store.new }
    ensures put { HasCleanDisk (at S.Store store.new) →
        IfOk result (λ written. (h : Holdings) (spell : ℕ → List ℕ) → Holds S.Store store.old h →
        h identity.now ≢ [] → IsInstantFormat spell →
        IsLineWritten (output_change O.Output out.old out.new) (list_line spell place identity.now
        (h identity.now)) written) }
    ensures counted { IfOk result
        (λ written. written ≡ true → O.failures out.new ≡ O.failures out.old) }
    ensures nothing { IfErr result (λ _. Gets (output_change O.Output out.old out.new) []) }
    ensures unfailed { IfErr result (λ fault. fault ≢ StoreFault.Failed) }
    ensures refused { HasCleanDisk (at S.Store store.new) → IfErr result (λ fault. (h : Holdings) →
        Holds S.Store store.old h → h identity.now ≢ [] → IsStoreRefusal fault) }
{
    match store.summary(identity)? {
        Some(summary) => Ok(put_line(out, list_line(alloc, place, identity, &summary))),
        None => Err(StoreFault::Foreign),
    }
}

/// Writes one line for each recording, in their order, until one is not written whole.
fn put_recordings<S: Alter, O: Output>(
    alloc: Global,
    store: &mut Store<S>,
    out: &mut O,
    recordings: &[Identity],
) -> Result<bool, StoreFault>
    ensures stays { KeepsHoldings S.Store store.old store.new }
    ensures counted { MatchResult result (λ written. written ≡ true →
        O.failures out.new ≡ O.failures out.old) (λ _. O.failures out.new ≡ O.failures out.old) }
    ensures unfailed { IfErr result (λ fault. fault ≢ StoreFault.Failed) }
    ensures put { HasCleanDisk (at S.Store store.new) →
        IfOk result (λ written. (h : Holdings) (spell : ℕ → List ℕ) → Holds S.Store store.old h →
        AreHeldBy h recordings.now → IsInstantFormat spell →
        AreLinesWritten (output_change O.Output out.old out.new)
        (first_list_lines spell h recordings.now) (length recordings.now) written) }
    ensures refused { HasCleanDisk (at S.Store store.new) → IfErr result (λ fault.
        (n : ℕ) × ((h : Holdings) → Holds S.Store store.old h → AreHeldBy h recordings.now →
        IsStoreRefusal fault × ((spell : ℕ → List ℕ) → IsInstantFormat spell →
        Gets (output_change O.Output out.old out.new)
        (first_list_lines spell h recordings.now n)))) }
{
    for (at, identity) in recordings.iter().enumerate() {
        if !put_recording(alloc, store, out, at + 1, identity)? {
            return Ok(false);
        }
    }
    Ok(true)
}

/// Prints why no more is listed. Printing takes no memory.
fn print_refusal<F: Output>(err: &mut F, fault: &StoreFault) -> Status
    ensures { IsWritten
        (output_change F.Output err.old err.new)
        (list_refused_line fault.now) Status.Trouble result }
{
    print_refused(err, "list", fault.number(), fault.name(), Status::Trouble)
}

/// Writes a line for each recording that is held, in the order of their identities' bytes.
pub fn list<S: Alter, O: Output, F: Output>(
    alloc: Global,
    store: &mut Store<S>,
    out: &mut O,
    err: &mut F,
) -> Status
    ensures { AreRecordingsListed S.Store store.old store.new
        (output_change O.Output out.old out.new)
        (output_change F.Output err.old err.new) result }
{
    let recordings = match store.identities() {
        Ok(recordings) => recordings,
        Err(fault) => return print_refusal(err, &fault),
    };
    match put_recordings(alloc, store, out, recordings.as_slice()) {
        Ok(true) => Status::Done,
        Ok(false) => Status::Trouble,
        Err(stop) => print_refusal(err, &stop),
    }
}

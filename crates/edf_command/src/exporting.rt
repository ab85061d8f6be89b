//! `export`: a recording's canonical file.

ghost use Rattle.std.specs.Prelude.{◌≡◌, option_map};
ghost use Rattle.sqlite.specs.State.{HasCleanDisk};
ghost use Rattle.edf_holdings.specs.Holdings.{Holdings};
ghost use Rattle.edf_store.specs.Held.{at, Holds, KeepsHoldings};
ghost use Rattle.edf_command.specs.Lines.{export_refused_line, export_status, no_recording_line};
ghost use Rattle.edf_cli.specs.Output.{output_change, IsWritten};
ghost use Rattle.edf_command.specs.Exporting.{IsRecordingExported, IsPlaceExported, ReportsExport};
ghost use Rattle.edf_command.specs.Exporting.{at_place};

use edf_cli::{Status, print_parts, print_refused, status_of_number};
use edf_export::{ExportFault, export};
use edf_fragment::Output;
use edf_header::Identity;
use edf_store::Store;
use itoa::Buffer;
use sqlite::Alter;
use std::alloc::Global;

/// Prints why a recording is not exported. Printing takes no memory.
fn print_refusal<F: Output>(err: &mut F, fault: &ExportFault) -> Status
    ensures { IsWritten (output_change F.Output err.old err.new)
        (export_refused_line fault.now) (export_status fault.now) result }
{
    let status = status_of_number(fault.number());
    print_refused(err, "export", fault.number(), fault.name(), status)
}

/// Prints that no recording has the place. Printing takes no memory.
pub fn print_no_recording<F: Output>(err: &mut F, place: u32) -> Status
    ensures { IsWritten
        (output_change F.Output err.old err.new) (no_recording_line place) Status.Refused result }
{
    let mut buffer = Buffer::new();
    let digits = buffer.format(place);
    let parts = [
        b"no recording at place ".as_slice(),
        digits.as_bytes(),
        b"\n",
    ];
    print_parts(err, &parts, Status::Refused)
}

/// Writes a recording's canonical file, or prints why not.
pub(crate) fn export_recording<S: Alter, O: Output, F: Output>(
    alloc: Global,
    store: &mut Store<S>,
    identity: &Identity,
    out: &mut O,
    err: &mut F,
) -> Status
    ensures stays { KeepsHoldings S.Store store.old store.new }
    ensures printed { ReportsExport
        (output_change O.Output out.old out.new) (output_change F.Output err.old err.new) result }
    ensures exported { HasCleanDisk (at S.Store store.new) → (h : Holdings) →
        Holds S.Store store.old h → IsRecordingExported (output_change O.Output out.old out.new)
        (output_change F.Output err.old err.new) h identity.now result }
{
    match export(alloc, store, identity, out) {
        Ok(_len) => Status::Done,
        Err(fault) => print_refusal(err, &fault),
    }
}

/// Returns the recording at a place, from 1.
fn at_place(recordings: &[Identity], place: u32) -> Option<&Identity>
    ensures { option_map (λ k. k.now) result ≡ at_place recordings.now place }
{
    if place == 0 {
        return None;
    }
    recordings.get(place as usize - 1)
}

/// Writes the canonical file of the recording at a place of the list, from 1.
pub fn export_place<S: Alter, O: Output, F: Output>(
    alloc: Global,
    place: u32,
    store: &mut Store<S>,
    out: &mut O,
    err: &mut F,
) -> Status
    ensures { IsPlaceExported S.Store store.old store.new (output_change O.Output out.old out.new)
        (output_change F.Output err.old err.new) place result }
{
    let recordings = match store.identities() {
        Ok(recordings) => recordings,
        Err(fault) => return print_refusal(err, &ExportFault::Store(fault)),
    };
    match at_place(recordings.as_slice(), place) {
        Some(identity) => export_recording(alloc, store, identity, out, err),
        None => print_no_recording(err, place),
    }
}

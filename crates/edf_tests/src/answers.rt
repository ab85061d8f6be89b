//! Answers by value, which no line of a command shows.

use crate::held::{CAP, empty_store, held, store_of_q};
use crate::printed::{FOREIGN, NO_MEMORY, NO_STORE, lines};
use edf_command::refuse_store;
use edf_export::{ExportFault, export};
use edf_fragment::Counted;
use edf_header::Identity;
use edf_intake::{submit, submit_all};
use edf_sample::named::{file_q, file_r9, file_u, identity_q};
use edf_sample::{Sink, Source, file, patched, q};
use edf_store::StoreFault;
use std::alloc::Global;

/// How many answers a list of no files has, and how many data records are held then.
fn of_no_files(alloc: Global) -> Option<(usize, u32)> {
    let mut store = empty_store(alloc, CAP)?;
    let mut none: Vec<Counted<Source<'static>>> = Vec::new(alloc);
    let count = submit_all(alloc, &mut store, none.as_mut_slice())
        .ok()?
        .len();
    let (records, _) = held(alloc, &mut store)?;
    Some((count, records))
}

#[test]
fn no_files_have_no_answers_and_leave_nothing(rt: HostRuntime) {
    assert_eq!(rt; of_no_files(rt.alloc()), Some((0, 0)));
}

/// The identity of Q's recording.
fn identity(alloc: Global) -> Option<Identity> {
    Identity::from_bytes(alloc, &identity_q(alloc).ok()?).ok()
}

/// Whether a receipt names Q's recording.
fn is_named(alloc: Global, bytes: &[u8]) -> Option<bool> {
    let mut store = empty_store(alloc, CAP)?;
    let mut input = Counted::new(Source::whole(bytes, 300));
    let receipt = submit(alloc, &mut store, &mut input).ok()?;
    Some(receipt.identity.same(&identity(alloc)?))
}

/// Whether the receipt of Q's data record names it under this recording field, from this startdate
/// on.
fn is_named_so(alloc: Global, recording: &'static str, date: &'static str) -> Option<bool> {
    let header = q().recording(recording).start(date, "23.59.50");
    let bytes = file(alloc, &header, &[b"\x01\0\xff\xff+0\x14\x14\0\0"]).ok()?;
    is_named(alloc, &bytes)
}

/// Whether the receipts of Q, R9, and Q on the last day name Q's recording, and those of Q without
/// a date and of U.
fn named(alloc: Global) -> Option<[bool; 5]> {
    Some([
        is_named(alloc, &file_q(alloc).ok()?)?,
        is_named(alloc, &file_r9(alloc).ok()?)?,
        is_named_so(alloc, "Startdate 31-DEC-2184 N1 T3 REC5", "31.12.yy")?,
        is_named_so(alloc, "Startdate X N1 T3 REC5", "02.03.02")?,
        is_named(alloc, &file_u(alloc).ok()?)?,
    ])
}

#[test]
fn a_receipt_names_the_recording(rt: HostRuntime) {
    let named = named(rt.alloc());
    assert_eq!(rt; named, Some([true, true, true, false, false]));
}

/// Why Q's recording without a date is not exported from a store of Q, how many bytes went out, and
/// whether the store has a summary of it.
fn not_exported(alloc: Global) -> Option<(ExportFault, usize, bool)> {
    let mut store = store_of_q(alloc)?;
    let bytes = patched(alloc, &identity_q(alloc).ok()?, 80, b"X").ok()?;
    let missing = Identity::from_bytes(alloc, &bytes).ok()?;
    let mut bytes = Vec::new(alloc);
    let mut out = Counted::new(Sink::whole(&mut bytes, 100));
    let fault = export(alloc, &mut store, &missing, &mut out).err()?;
    drop(out);
    let is_summed = store.summary(&missing).ok()?.is_some();
    Some((fault, bytes.len(), is_summed))
}

#[test]
fn a_recording_that_is_not_held_is_not_exported(rt: HostRuntime) {
    let answer = not_exported(rt.alloc());
    assert_eq!(rt; answer, Some((ExportFault::NoRecording, 0, false)));
    assert_eq!(rt; ExportFault::NoRecording.number(), 44);
}

/// The status where a store has this fault as it is opened, and whether just this answer is
/// written.
fn refused(alloc: Global, fault: StoreFault, answer: &str) -> Option<(u8, bool)> {
    let mut bytes = Vec::new(alloc);
    let mut err = Counted::new(Sink::whole(&mut bytes, 100));
    let status = refuse_store(&fault, &mut err);
    drop(err);
    let line = lines(alloc, &[("store", answer)]).ok()?;
    Some((status.code(), bytes.as_slice() == line.as_bytes()))
}

#[test]
fn a_store_that_cannot_be_opened_is_refused_by_its_fault(rt: HostRuntime) {
    for (fault, answer) in [
        (StoreFault::Memory, NO_MEMORY),
        (StoreFault::Store(None), NO_STORE),
        (StoreFault::Foreign, FOREIGN),
    ] {
        assert_eq!(rt;
            refused(rt.alloc(), fault, answer),
            Some((3, true)),
            "{answer}"
        );
    }
}

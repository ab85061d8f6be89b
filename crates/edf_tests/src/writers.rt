//! Exports to writers that take their bytes in pieces, and stop.

use crate::held::store_of_both;
use edf_disk_sample::q_and_p5;
use edf_export::{ExportFault, export};
use edf_fragment::Counted;
use edf_header::Identity;
use edf_sample::Sink;
use edf_store::Store;
use sqlite::MemStore;
use std::alloc::Global;

/// What an export is answered, and whether just the front of the file went out for which the writer
/// has room.
pub(crate) type Sent = (Result<u64, ExportFault>, bool);

/// An export to a writer with room for `room` bytes, which then fails, or takes none; `expected` is
/// the file.
pub(crate) fn stopped(
    alloc: Global,
    store: &mut Store<MemStore>,
    identity: &Identity,
    expected: &[u8],
    room: usize,
    full: bool,
) -> Sent {
    let mut got = Vec::new(alloc);
    let mut out = Counted::new(Sink::of_room(&mut got, room, full));
    let answer = export(alloc, store, identity, &mut out);
    drop(out);
    let front = expected.get(..room).unwrap_or(expected);
    (answer, got.as_slice() == front)
}

/// The least room for which the export is not refused so, and what it is then answered.
fn least_room(alloc: Global, full: bool) -> Option<(usize, Sent)> {
    let expected = q_and_p5(alloc)?;
    let mut store = store_of_both(alloc)?;
    let identity = store.identities().ok()?.pop()?;
    for room in 0..841usize {
        let sent = stopped(alloc, &mut store, &identity, &expected, room, full);
        if sent != (Err(ExportFault::Write), true) {
            return Some((room, sent));
        }
    }
    None
}

#[test]
fn a_writer_that_stops_has_the_front_of_the_file(rt: HostRuntime) {
    for full in [false, true] {
        let least = least_room(rt.alloc(), full);
        assert_eq!(rt; least, Some((840, (Ok(840), true))), "takes none: {full}");
    }
}

/// An export to a writer that takes one byte a write.
fn byte_by_byte(alloc: Global) -> Option<Sent> {
    let expected = q_and_p5(alloc)?;
    let mut store = store_of_both(alloc)?;
    let identity = store.identities().ok()?.pop()?;
    let mut got = Vec::new(alloc);
    let mut out = Counted::new(Sink::whole(&mut got, 1));
    let answer = export(alloc, &mut store, &identity, &mut out);
    drop(out);
    Some((answer, got.as_slice() == expected.as_slice()))
}

#[test]
fn a_writer_that_takes_a_byte_at_a_time_has_the_file(rt: HostRuntime) {
    assert_eq!(rt; byte_by_byte(rt.alloc()), Some((Ok(840), true)));
}

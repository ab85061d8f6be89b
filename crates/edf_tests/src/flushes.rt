//! Exports of a file that is longer than their buffer, to writers that take all, take it in
//! pieces, and stop around each write.

use crate::large::{LARGE_BYTES, large_file, store_of_large};
use crate::writers::{Sent, stopped};
use edf_export::{ExportFault, export};
use edf_fragment::Counted;
use edf_header::Identity;
use edf_sample::Sink;
use edf_store::Store;
use sqlite::MemStore;
use std::alloc::Global;
use std::io::{self, Write};

/// Takes all, and keeps where each write ended.
#[derive(Drop)]
struct Ends<'a> {
    got: &'a mut Vec<u8>,
    ends: &'a mut Vec<usize>,
}

impl Write for Ends<'_> {
    fn write(&mut self, buf: &[u8]) -> io::Result<usize> {
        self.got.extend_from_slice(buf)?;
        self.ends.push(self.got.len())?;
        Ok(buf.len())
    }

    fn flush(&mut self) -> io::Result<()> {
        Ok(())
    }
}

/// Where the writes of the large file end. Its header and a data record of 199,002 bytes fit into
/// the buffer, and the next one's samples do not, so that each write has one data record.
const ENDS: &[usize] = &[199_770, 398_772, LARGE_BYTES];

/// An export to a writer that takes all, and whether its writes ended just there.
fn whole(alloc: Global) -> Option<(Sent, bool)> {
    let expected = large_file(alloc)?;
    let mut store = store_of_large(alloc)?;
    let identity = store.identities().ok()?.pop()?;
    let (mut bytes, mut ends) = (Vec::new(alloc), Vec::new(alloc));
    let mut out = Counted::new(Ends {
        got: &mut bytes,
        ends: &mut ends,
    });
    let answer = export(alloc, &mut store, &identity, &mut out);
    drop(out);
    let same = bytes.as_slice() == expected.as_slice();
    Some(((answer, same), ends.as_slice() == ENDS))
}

#[test]
fn a_file_longer_than_the_buffer_goes_out_whole_in_three_writes(rt: HostRuntime) {
    assert_eq!(rt;
        whole(rt.alloc()),
        Some(((Ok(LARGE_BYTES as u64), true), true))
    );
}

/// An export to a writer that takes 1,000 bytes a write.
fn by_thousands(alloc: Global) -> Option<Sent> {
    let expected = large_file(alloc)?;
    let mut store = store_of_large(alloc)?;
    let identity = store.identities().ok()?.pop()?;
    let mut got = Vec::new(alloc);
    let mut out = Counted::new(Sink::whole(&mut got, 1_000));
    let answer = export(alloc, &mut store, &identity, &mut out);
    drop(out);
    Some((answer, got.as_slice() == expected.as_slice()))
}

#[test]
fn a_file_longer_than_the_buffer_goes_out_whole_in_writes_of_a_thousand_bytes(rt: HostRuntime) {
    assert_eq!(rt;
        by_thousands(rt.alloc()),
        Some((Ok(LARGE_BYTES as u64), true))
    );
}

/// Of the rooms from two bytes less than `end` to two more, the first for which an export does not
/// end as it must: with just this front of the file and a failed write, or with the whole file.
fn other_room(
    alloc: Global,
    store: &mut Store<MemStore>,
    identity: &Identity,
    expected: &[u8],
    end: usize,
    full: bool,
) -> Option<usize> {
    for more in 0..5usize {
        let room = end.saturating_add(more).saturating_sub(2);
        let answer = if room < LARGE_BYTES {
            Err(ExportFault::Write)
        } else {
            Ok(LARGE_BYTES as u64)
        };
        if stopped(alloc, store, identity, expected, room, full) != (answer, true) {
            return Some(room);
        }
    }
    None
}

/// The first such room around the ends of all writes, where there is one.
fn other_rooms(alloc: Global, full: bool) -> Option<Option<usize>> {
    let expected = large_file(alloc)?;
    let mut store = store_of_large(alloc)?;
    let identity = store.identities().ok()?.pop()?;
    for end in ENDS.iter().copied() {
        let other = other_room(alloc, &mut store, &identity, &expected, end, full);
        if other.is_some() {
            return Some(other);
        }
    }
    Some(None)
}

#[test]
fn a_writer_that_fails_or_takes_none_around_the_end_of_a_write_has_the_front(rt: HostRuntime) {
    for full in [false, true] {
        assert_eq!(rt;
            other_rooms(rt.alloc(), full),
            Some(None),
            "takes none: {full}"
        );
    }
}

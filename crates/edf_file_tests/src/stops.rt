//! Readers that end or fail once and then go on: nothing is read after the end or the failure.
//! Buffers that are filled, and writers that fail.

use crate::failing::bytes_of;
use edf_fragment::{Counted, Filled, FragmentFault, FragmentReader, fill, read_fragment, send};
use edf_header::HeaderFault;
use edf_sample::named::file_q;
use edf_sample::{Sink, Source, StopsOnce, patched};
use edf_tal::TalFault;
use std::alloc::Global;
use std::io;

/// Reads a fragment to its end or its fault, and once more.
fn read_twice(alloc: Global, input: StopsOnce<'_>) -> Option<FragmentFault> {
    let mut input = Counted::new(input);
    let mut reader = match FragmentReader::open(alloc, &mut input) {
        Ok(reader) => reader,
        Err(fault) => return Some(fault),
    };
    for _ in 0..10u8 {
        match reader.next() {
            Ok(Some(_)) => {}
            Ok(None) => {
                let _ = reader.next();
                return None;
            }
            Err(fault) => {
                let _ = reader.next();
                return Some(fault);
            }
        }
    }
    None
}

/// The fault and the number of reads of a fragment, one record after another, by a reader that
/// gives one byte a read and ends or fails once after `stop` of them.
fn drained(
    alloc: Global,
    bytes: &[u8],
    stop: usize,
    fails: bool,
) -> (Option<FragmentFault>, usize) {
    let mut reads = 0;
    let fault = read_twice(alloc, StopsOnce::new(bytes, stop, fails, &mut reads));
    (fault, reads)
}

/// The same, read at once.
fn drained_whole(
    alloc: Global,
    bytes: &[u8],
    stop: usize,
    fails: bool,
) -> (Option<FragmentFault>, usize) {
    let mut reads = 0;
    let mut input = Counted::new(StopsOnce::new(bytes, stop, fails, &mut reads));
    let fault = read_fragment(alloc, &mut input).err();
    drop(input);
    (fault, reads)
}

/// The fault and the number of reads of a file, where both ways to read it have the same.
fn drained_both(
    alloc: Global,
    name: &str,
    stop: usize,
    fails: bool,
) -> Option<(Option<FragmentFault>, usize)> {
    let bytes = bytes_of(alloc, name)?;
    let drained = drained(alloc, &bytes, stop, fails);
    if drained == drained_whole(alloc, &bytes, stop, fails) {
        Some(drained)
    } else {
        None
    }
}

/// A file, where its reader ends or fails, how many reads there are, and the fault of the end.
const ENDS: &[(&str, usize, usize, Option<FragmentFault>)] = &[
    ("q", 0, 1, Some(FragmentFault::Header(HeaderFault::Cut))),
    ("q", 255, 256, Some(FragmentFault::Header(HeaderFault::Cut))),
    (
        "q",
        256,
        257,
        Some(FragmentFault::Header(HeaderFault::CutSignals)),
    ),
    (
        "q",
        767,
        768,
        Some(FragmentFault::Header(HeaderFault::CutSignals)),
    ),
    ("q", 768, 769, Some(FragmentFault::CutRecord { nth: 1 })),
    ("q", 777, 778, Some(FragmentFault::CutRecord { nth: 1 })),
    ("q", 778, 779, None),
    ("k", 768, 769, Some(FragmentFault::CutRecord { nth: 1 })),
    ("k", 777, 778, Some(FragmentFault::CutRecord { nth: 1 })),
    ("k", 778, 779, None),
    ("k", 779, 780, Some(FragmentFault::CutRecord { nth: 2 })),
    ("k", 788, 789, None),
    ("k", 789, 790, Some(FragmentFault::CutRecord { nth: 3 })),
    ("k", 798, 799, None),
];

/// The fault of Q and three spaces, with another text from an offset on, and the number of reads.
fn drained_other(alloc: Global, at: usize, text: &[u8]) -> Option<(Option<FragmentFault>, usize)> {
    let mut bytes = file_q(alloc).ok()?;
    bytes.extend_from_slice(b"   ").ok()?;
    let other = patched(alloc, &bytes, at, text).ok()?;
    Some(drained(alloc, &other, usize::MAX, true))
}

/// The offset of another text, the text, how many reads there are, and the fault.
const REFUSALS: &[(usize, &[u8], usize, FragmentFault)] = &[
    (
        176,
        b"24.00.00",
        256,
        FragmentFault::Header(HeaderFault::Starttime),
    ),
    (
        272,
        b"EDF annotations",
        768,
        FragmentFault::Header(HeaderFault::Annotations),
    ),
    (
        464,
        b"0       -1      -0.0",
        768,
        FragmentFault::Header(HeaderFault::Physical { signal: 1 }),
    ),
    (
        772,
        b"?",
        778,
        FragmentFault::Tal {
            nth: 1,
            fault: TalFault::Tal { offset: 0 },
        },
    ),
    (778, b"-", 779, FragmentFault::Trailing),
];

#[test]
fn nothing_is_read_after_an_end_a_failed_read_or_a_refusal(rt: HostRuntime) {
    let whole = drained_both(rt.alloc(), "q", usize::MAX, false);
    assert_eq!(rt; whole, Some((None, 779)));
    for (name, stop, reads, fault) in ENDS.iter().copied() {
        for (fails, expected) in [(false, fault), (true, Some(FragmentFault::Read))] {
            let drained = drained_both(rt.alloc(), name, stop, fails);
            assert_eq!(rt; drained, Some((expected, reads)), "{stop} bytes of {name}");
        }
    }
    for (at, text, reads, fault) in REFUSALS.iter().copied() {
        let drained = drained_other(rt.alloc(), at, text);
        assert_eq!(rt; drained, Some((Some(fault), reads)), "at {at}");
    }
}

/// How a buffer of five bytes is filled from these bytes, whose reads fail after `cut` of them; and
/// the buffer then.
fn filled(bytes: &[u8], cut: usize) -> (Filled, [u8; 5]) {
    let mut buffer = [b'.'; 5];
    let kind = io::ErrorKind::Interrupted;
    let mut input = Counted::new(Source::failing(bytes, cut, kind));
    (fill(&mut input, &mut buffer), buffer)
}

/// Whether the first 300 bytes of Q are sent to a writer of this room, and whether just those went
/// out for which there is room.
fn sends(alloc: Global, room: usize, full: bool) -> Option<(bool, bool)> {
    let bytes = file_q(alloc).ok()?;
    let mut got = Vec::new(alloc);
    let mut out = Counted::new(Sink::of_room(&mut got, room, full));
    let whole = send(&mut out, bytes.get(..300)?);
    drop(out);
    Some((whole, got.as_slice() == bytes.get(..room.min(300))?))
}

/// How many bytes the writer has room for, and whether all are written.
const ROOMS: &[(usize, bool)] = &[
    (0, false),
    (1, false),
    (50, false),
    (299, false),
    (300, true),
    (400, true),
];

#[test]
fn a_buffer_is_filled_or_sent_whole_or_it_is_told_why_not(rt: HostRuntime) {
    let eight = b"abcdefgh".as_slice();
    assert_eq!(rt; filled(eight, 8), (Filled::Full, *b"abcde"));
    assert_eq!(rt; filled(eight, 5), (Filled::Full, *b"abcde"));
    assert_eq!(rt; filled(b"abc", 8), (Filled::Cut { at: 3 }, *b"abc.."));
    let (failed, _) = filled(eight, 4);
    assert_eq!(rt; failed, Filled::Failed);
    for (room, whole) in ROOMS.iter().copied() {
        for full in [false, true] {
            let sent = sends(rt.alloc(), room, full);
            assert_eq!(rt; sent, Some((whole, true)), "room for {room}");
        }
    }
}

//! Readers and writers that fail, and files that change.

use crate::files::file_named;
use crate::folder::{Limits, free};
use crate::shelf::Shelf;
use crate::stage::{outcome_of, story};
use edf_cli::Status;
use std::alloc::Global;

/// One of the commands that read twice.
const BY_ONSET: &str = "edfruns canonical two.edf --by-onset";

/// Commands, the file of each and its length, and whether its second reading fails.
const READINGS: &[(&str, &str, usize, bool)] = &[
    ("edfruns list two.edf", "two.edf", 1_008, false),
    ("edfruns picture two.edf", "two.edf", 1_008, false),
    ("edfruns picture two.edf", "two.edf", 1_008, true),
    (SPLIT, "two.edf", 1_008, false),
    ("edfruns canonical two.edf", "two.edf", 1_008, false),
    ("edfruns canonical two.edf", "two.edf", 1_008, true),
    (BY_ONSET, "two.edf", 1_008, false),
    (BY_ONSET, "two.edf", 1_008, true),
    (
        "edfmend falling.edf out.edf --all",
        "falling.edf",
        778,
        false,
    ),
    (
        "edfmend falling.edf out.edf --all",
        "falling.edf",
        778,
        true,
    ),
];

/// What a command prints where a reading fails from a byte on.
fn story_of_failing(alloc: Global, line: &str, cut: usize, is_second: bool) -> Option<String> {
    let (first, second) = if is_second {
        (usize::MAX, cut)
    } else {
        (cut, usize::MAX)
    };
    let shelf = Shelf::new(alloc).failing(first, second);
    story(alloc, shelf, free(), usize::MAX, line)
}

/// From which byte of a reading on a command is not refused for a read that fails, or leaves a
/// file; `None` where it is refused from each one on.
fn unrefused(alloc: Global, reading: &(&str, &str, usize, bool)) -> Option<usize> {
    let (line, name, length, is_second) = *reading;
    let expected = format!(in alloc; "err: {name} refused E40 Read\nstatus 3, 0 files\n").ok();
    for cut in 0..=length {
        if story_of_failing(alloc, line, cut, is_second) != expected {
            return Some(cut);
        }
    }
    None
}

#[test]
fn a_reading_that_fails_is_refused_and_leaves_no_file(rt: HostRuntime) {
    for reading in READINGS {
        let (line, is_second) = (reading.0, reading.3);
        assert_eq!(rt; unrefused(rt.alloc(), reading), None, "{line}, {is_second}");
    }
}

/// Commands, the file of each, and what its second reading finds in its place.
const CHANGES: &[(&str, &str, &[&str])] = &[
    (
        "edfruns picture two.edf",
        "two.edf",
        &[
            "one.edf",
            "cut.edf",
            "loose.edf",
            "tenths.edf",
            "overlap.edf",
            "grown.edf",
        ],
    ),
    (
        "edfruns canonical two.edf",
        "two.edf",
        &[
            "one.edf",
            "cut.edf",
            "loose.edf",
            "tenths.edf",
            "overlap.edf",
            "grown.edf",
        ],
    ),
    (
        "edfruns canonical strays.edf --by-onset",
        "strays.edf",
        &["two.edf"],
    ),
    (
        BY_ONSET,
        "two.edf",
        &["one.edf", "cut.edf", "loose.edf", "grown.edf"],
    ),
];

/// Whether a command says that its file changed, and leaves none, where its second reading finds
/// the other.
fn is_told(alloc: Global, line: &str, name: &str, other: &str) -> Option<bool> {
    let shelf = Shelf::new(alloc).changed(file_named(alloc, other)?);
    let printed = story(alloc, shelf, free(), usize::MAX, line)?;
    let expected = format!(in alloc;
        "err: {name} changed between its readings\nstatus 3, 0 files\n"
    ).ok()?;
    Some(printed == expected)
}

#[test]
fn a_file_that_changed_between_its_readings_is_refused_and_leaves_no_file(rt: HostRuntime) {
    for (line, name, others) in CHANGES.iter().copied() {
        for other in others.iter().copied() {
            let told = is_told(rt.alloc(), line, name, other);
            assert_eq!(rt; told, Some(true), "{line}, {other}");
        }
    }
}

/// The command that makes three files, of the runs of 3, 2 and 1 data records.
const SPLIT: &str = "edfruns split two.edf night";

/// The lines and the files that a split leaves which does not end well, and what it says of that;
/// `None` where it ends well.
fn left_by_split(alloc: Global, shelf: Shelf) -> Option<(usize, usize, Vec<u8>)> {
    let outcome = outcome_of(alloc, shelf, free(), usize::MAX, SPLIT)?;
    if outcome.status != Status::Trouble {
        return None;
    }
    let lines = outcome.out.iter().filter(|byte| **byte == b'\n').count();
    Some((lines, outcome.left, outcome.err))
}

/// Whether a split whose second reading fails from a byte on leaves so many files, each with its
/// line.
fn leaves_whole_files(alloc: Global, cut: usize, count: usize) -> Option<bool> {
    let (lines, left, err) = left_by_split(alloc, Shelf::new(alloc).failing(usize::MAX, cut))?;
    let said = b"two.edf refused E40 Read\n".as_slice();
    Some(lines == count && left == count && err.as_slice() == said)
}

/// The same of one whose second reading finds the other file.
fn leaves_those_before_a_change(alloc: Global, other: &str, count: usize) -> Option<bool> {
    let shelf = Shelf::new(alloc).changed(file_named(alloc, other)?);
    let (lines, left, err) = left_by_split(alloc, shelf)?;
    let said = b"two.edf changed between its readings\n".as_slice();
    Some(lines == count && left == count && err.as_slice() == said)
}

#[test]
fn a_split_that_stops_leaves_whole_files_each_with_its_line(rt: HostRuntime) {
    // A data record has 40 bytes.
    for cut in 0..=1_008usize {
        let count = match cut {
            0..=887 => 0,
            888..=967 => 1,
            968..=1_007 => 2,
            _ => 3,
        };
        let is_so = leaves_whole_files(rt.alloc(), cut, count);
        assert_eq!(rt; is_so, Some(true), "{cut}");
    }
    let others = [
        ("one.edf", 0),
        ("cut.edf", 0),
        ("loose.edf", 1),
        ("tenths.edf", 0),
        ("overlap.edf", 0),
        ("grown.edf", 3),
    ];
    for (other, count) in others {
        let is_so = leaves_those_before_a_change(rt.alloc(), other, count);
        assert_eq!(rt; is_so, Some(true), "{other}");
    }
}

/// Commands, what their folder can't do, and what they print. Files of a split that are whole stay.
fn folders() -> [(&'static str, Limits, &'static str); 10] {
    let mend = "edfmend falling.edf out.edf --all";
    let first = "err: night-1.edf refused E43 Write\nstatus 3, 0 files\n";
    let second = "night-1.edf 1 records=3 first=2002-03-02T23:59:50.25 seconds=3 gap=7.5 \
        annotations=1 outside=0 patient=P7 investigation=N1\n\
        err: night-2.edf refused E43 Write\nstatus 3, 1 files\n";
    let third = "night-1.edf 1 records=3 first=2002-03-02T23:59:50.25 seconds=3 gap=7.5 \
        annotations=1 outside=0 patient=P7 investigation=N1\n\
        night-2.edf 2 records=2 first=2002-03-03T00:00:00.75 seconds=2 gap=3597.25 \
        annotations=2 outside=2 patient=P7 investigation=N1\n\
        err: night-3.edf refused E43 Write\nstatus 3, 2 files\n";
    let mended = "err: out.edf refused E43 Write\nstatus 3, 0 files\n";
    let kept = "err: night-1.edf refused E43 Write\nstatus 3, 1 files\n";
    let half = "err: out.edf refused E43 Write\nout.edf.part could not be removed\n\
        status 3, 1 files\n";
    let free = free();
    [
        (SPLIT, Limits { room: 0, ..free }, first),
        (SPLIT, Limits { room: 800, ..free }, first),
        (SPLIT, Limits { unmade: 1, ..free }, first),
        (SPLIT, Limits { unmade: 3, ..free }, third),
        (
            SPLIT,
            Limits {
                unfinished: 2,
                ..free
            },
            second,
        ),
        (
            SPLIT,
            Limits {
                room: 800,
                unremoved: 1,
                ..free
            },
            kept,
        ),
        (mend, Limits { unmade: 1, ..free }, mended),
        (mend, Limits { room: 0, ..free }, mended),
        (mend, Limits { room: 777, ..free }, mended),
        (
            mend,
            Limits {
                room: 0,
                unremoved: 1,
                ..free
            },
            half,
        ),
    ]
}

#[test]
fn a_file_that_cannot_be_made_or_removed_is_named_and_no_other_is_left(rt: HostRuntime) {
    for (line, limits, expected) in folders() {
        let shelf = Shelf::new(rt.alloc());
        let printed = story(rt.alloc(), shelf, limits, usize::MAX, line);
        let is_so = printed.is_some_and(|text| text.as_str() == expected);
        assert!(rt; is_so, "{line}: {expected}");
    }
}

/// Room on standard output, and what a list of three files prints.
const LISTS: &[(usize, &str)] = &[
    (
        5,
        "one.eerr: standard output refused E43 Write\nstatus 3, 0 files\n",
    ),
    (
        88,
        "one.edf 1 records=2 first=2002-03-02T23:59:50 seconds=2 patient=P7 investigation=N1\ntent\
        err: standard output refused E43 Write\nstatus 3, 0 files\n",
    ),
    (
        200,
        "one.edf 1 records=2 first=2002-03-02T23:59:50 seconds=2 patient=P7 investigation=N1\n\
        tenths.edf 1 records=4 first=2002-03-02T23:59:50 seconds=0.4 \
        patient=P7 investigation=N1\n\
        err: none.edf refused E40 Read\nstatus 3, 0 files\n",
    ),
];

/// Commands that write more than a hundred bytes, and how many files are left where standard output
/// does not take them: a mended file and that of a run stay where their lines can't be told.
const WRITERS: &[(&str, usize)] = &[
    ("edfruns list two.edf", 0),
    ("edfruns canonical two.edf", 0),
    (SPLIT, 1),
    ("edfruns picture two.edf", 0),
    ("edfmend falling.edf out.edf --all", 1),
];

/// How a line of words ends with room for so many bytes on standard output, how many bytes went
/// out, and how many files are left.
fn outcome_with_room(alloc: Global, line: &str, room: usize) -> Option<(Status, usize, usize)> {
    let outcome = outcome_of(alloc, Shelf::new(alloc), free(), room, line)?;
    Some((outcome.status, outcome.out.len(), outcome.left))
}

#[test]
fn lines_and_files_that_cannot_be_written_are_trouble(rt: HostRuntime) {
    for (room, expected) in LISTS.iter().copied() {
        let line = "edfruns list one.edf tenths.edf none.edf";
        let printed = story(rt.alloc(), Shelf::new(rt.alloc()), free(), room, line);
        let is_so = printed.is_some_and(|text| text.as_str() == expected);
        assert!(rt; is_so, "{room}");
    }
    for (line, left) in WRITERS.iter().copied() {
        for room in [0usize, 1, 59, 100] {
            let outcome = outcome_with_room(rt.alloc(), line, room);
            assert_eq!(rt;
                outcome,
                Some((Status::Trouble, room, left)),
                "{line}, {room}"
            );
        }
    }
}

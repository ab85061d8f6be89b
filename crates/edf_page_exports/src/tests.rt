//! Calls over small files. What comes of them is what the documents say of these files.

use crate::{page_compare, page_mend, page_night, page_runs};
use edf_sample::named::{file_k, file_n1, file_n2, file_n3, file_p5, file_q, file_u};
use edf_sample::patched;
use std::alloc::{AllocError, Global};

/// The lines of the runs of the recording of both files.
const RUNS: &[u8] = b"\
1 records=1 first=2002-03-02T23:59:50 seconds=1 gap=14 patient=P7 investigation=N1
2 records=1 first=2002-03-03T00:00:05 seconds=1 patient=P7 investigation=N1
";

/// The start of file P5, 2002-03-03T00:00:05, in nanoseconds from 1985.
const FROM: u64 = (6270 * 86_400 + 5) * 1_000_000_000;

/// What `fill` says of file P5, and `compare` where both files are it.
const FILLED: &[u8] = b"run-1.edf records=1 flat=0 gaps=0 closed=0 moved=0\n";

const KNOWN: &[u8] = b"\
known records=1 from=2002-03-03T00:00:05 to=2002-03-03T00:00:06
";

/// The line of that recording.
const LISTED: &[u8] = b"1 records=2 first=2002-03-02T23:59:50 patient=P7 investigation=N1\n";

/// What lies one after another, and the sizes.
#[derive(Drop)]
struct Lying {
    bytes: Vec<u8>,
    sizes: Vec<u64>,
}

fn laid(alloc: Global, pieces: &[&[u8]]) -> Result<Lying, AllocError> {
    let mut bytes = Vec::new(alloc);
    let mut sizes = Vec::new(alloc);
    for piece in pieces {
        bytes.extend_from_slice(piece)?;
        sizes.push(piece.len() as u64)?;
    }
    Ok(Lying { bytes, sizes })
}

/// Whether bytes have a word of two in them.
fn has(bytes: &[u8], word: &[u8]) -> bool {
    bytes.windows(2).any(|part| part == word)
}

/// What a call answered, in so much room.
#[derive(Drop)]
struct Answered {
    status: u32,
    out: Vec<u8>,
    parts: Vec<u64>,
}

impl Answered {
    /// How many pieces are given.
    fn count(&self) -> u64 {
        self.parts.first().copied().unwrap_or(0)
    }

    /// The piece at a place, from 0.
    fn piece(&self, place: usize) -> Option<&[u8]> {
        let mut from = 0usize;
        for size in self.parts.iter().skip(1).take(place) {
            from = from.saturating_add(*size as usize);
        }
        let size = *self.parts.get(place.saturating_add(1))? as usize;
        self.out.get(from..from.saturating_add(size))
    }

    /// Whether all is given, in so many pieces, and these are at their places.
    fn gives(&self, count: u64, pieces: &[(usize, &[u8])]) -> bool {
        let mut is_so = self.status == 0 && self.count() == count;
        for (place, piece) in pieces.iter().copied() {
            is_so = is_so && self.piece(place) == Some(piece);
        }
        is_so
    }
}

/// Files of these names, in so much room.
fn night(
    alloc: Global,
    names: &[&[u8]],
    files: &[&[u8]],
    room: usize,
    places: usize,
) -> Result<Answered, AllocError> {
    let names = laid(alloc, names)?;
    let files = laid(alloc, files)?;
    let mut out = vec![in alloc; 7u8; room]?;
    let mut parts = vec![in alloc; 7u64; places]?;
    let status = page_night(
        alloc,
        names.bytes.as_slice(),
        names.sizes.as_slice(),
        files.bytes.as_slice(),
        files.sizes.as_slice(),
        out.as_mut_slice(),
        parts.as_mut_slice(),
    );
    Ok(Answered { status, out, parts })
}

/// What `edfruns` does with file P5 by this number, from its start on.
fn runs(alloc: Global, which: u32, prefix: &[u8]) -> Result<Answered, AllocError> {
    let file = file_p5(alloc)?;
    let mut out = vec![in alloc; 7u8; 40000]?;
    let mut parts = vec![in alloc; 7u64; 20]?;
    let status = page_runs(
        alloc,
        which,
        FROM,
        FROM + 1,
        prefix,
        b"run-1.edf",
        file.as_slice(),
        out.as_mut_slice(),
        parts.as_mut_slice(),
    );
    Ok(Answered { status, out, parts })
}

/// What `edfruns compare` says of file P5 and this one.
fn compare(alloc: Global, other: &[u8]) -> Result<Answered, AllocError> {
    let file = file_p5(alloc)?;
    let mut out = vec![in alloc; 7u8; 400]?;
    let mut parts = vec![in alloc; 7u64; 4]?;
    let (room, places) = (out.as_mut_slice(), parts.as_mut_slice());
    let status = page_compare(alloc, file.as_slice(), other, room, places);
    Ok(Answered { status, out, parts })
}

/// What `edfmend` does with file P5 by these values.
fn mend(alloc: Global, values: &[&[u8]]) -> Result<Answered, AllocError> {
    let values = laid(alloc, values)?;
    let file = file_p5(alloc)?;
    let mut out = vec![in alloc; 7u8; 20000]?;
    let mut parts = vec![in alloc; 7u64; 20]?;
    let status = page_mend(
        alloc,
        values.bytes.as_slice(),
        values.sizes.as_slice(),
        b"p5.edf",
        file.as_slice(),
        out.as_mut_slice(),
        parts.as_mut_slice(),
    );
    Ok(Answered { status, out, parts })
}

/// Both files and a text that is none, whose name P5 has too.
fn three(alloc: Global, room: usize, places: usize) -> Result<Answered, AllocError> {
    let (p5, q) = (file_p5(alloc)?, file_q(alloc)?);
    let names = [b"p5.edf".as_slice(), b"q.edf", b"p5.edf"];
    let files = [p5.as_slice(), q.as_slice(), b"no file"];
    night(alloc, &names, &files, room, places)
}

/// The pieces of these three.
const OF_THREE: &[(usize, &[u8])] = &[
    (0, b"p5.edf accepted new=1 known=0\n"),
    (1, b"q.edf accepted new=1 known=0\n"),
    (2, b"p5.edf refused E1 Cut\n"),
    (3, LISTED),
    (5, RUNS),
];

/// A number, a prefix, how many pieces come, and some of them by their places.
type RunsRow = (u32, &'static [u8], u64, &'static [(usize, &'static [u8])]);

const OF_RUNS: &[RunsRow] = &[
    (
        0,
        b"",
        3,
        &[
            (0, b"\0"),
            (
                1,
                b"1 records=1 first=2002-03-03T00:00:05 seconds=1 \
                    patient=P7 investigation=N1\n",
            ),
        ],
    ),
    (3, b"one", 5, &[(0, b"\0"), (3, b"one-1.edf")]),
    (
        3,
        b"run",
        3,
        &[
            (0, b"\x01"),
            (2, b"run-1.edf is there already; nothing was written\n"),
        ],
    ),
];

/// The seven values, how many pieces come, and some of them by their places.
type MendRow = (
    &'static [&'static [u8]],
    u64,
    &'static [(usize, &'static [u8])],
);

const OF_MENDING: &[MendRow] = &[
    (
        &[b"", b"", b"", b"", b"", b"", b""],
        3,
        &[(0, b"\0"), (1, b"p5.edf needs nothing\n")],
    ),
    (
        &[b"out.edf", b"", b"", b"S-1", b"", b"", b""],
        5,
        &[(0, b"\0"), (3, b"out.edf")],
    ),
    (
        &[b"p5.edf", b"", b"", b"", b"", b"", b""],
        3,
        &[
            (0, b"\x01"),
            (2, b"p5.edf is there already; nothing was written\n"),
        ],
    ),
    (
        &[b"out.edf", b"a b", b"", b"", b"", b"", b""],
        3,
        &[(0, b"\x02"), (1, b"")],
    ),
];

#[test]
fn a_night_has_a_line_for_each_file_and_all_of_its_recording(
    rt: HostRuntime,
) -> Result<(), AllocError> {
    let all = three(rt.alloc(), 40000, 9)?;
    assert!(rt; all.gives(7, OF_THREE));
    assert_eq!(rt; all.parts.last().copied(), Some(7));
    Ok(())
}

/// What comes of the three with so much room, in so many places.
fn status_in(alloc: Global, room: usize, places: usize) -> Result<u32, AllocError> {
    Ok(three(alloc, room, places)?.status)
}

#[test]
fn just_enough_room_is_enough(rt: HostRuntime) -> Result<(), AllocError> {
    let less = three(rt.alloc(), 0, 8)?;
    let room = less.parts.get(1).copied().unwrap_or(0) as usize;
    assert_eq!(rt; (less.status, less.count()), (1, 7));
    for (given, places, status) in [
        (room, 8, 0),
        (room.saturating_sub(1), 8, 1),
        (room, 7, 1),
        (room, 1, 3),
    ] {
        assert_eq!(rt; status_in(rt.alloc(), given, places)?, status);
    }
    Ok(())
}

/// What comes of the card's three pieces.
fn cards(alloc: Global) -> Result<Answered, AllocError> {
    let (n3, n1, n2) = (file_n3(alloc)?, file_n1(alloc)?, file_n2(alloc)?);
    let files = [n3.as_slice(), n1.as_slice(), n2.as_slice()];
    night(alloc, &[b"3", b"1", b"2"], &files, 40000, 20)
}

#[test]
fn the_file_is_the_recordings_own(rt: HostRuntime) -> Result<(), AllocError> {
    let all = cards(rt.alloc())?;
    let card = patched(rt.alloc(), &file_k(rt.alloc())?, 192, b"EDF+D")?;
    assert!(rt; all.gives(7, &[(4, card.as_slice())]));
    assert!(rt; has(all.piece(6).unwrap_or(b""), b"P7"));
    Ok(())
}

#[test]
fn each_recording_has_its_pieces(rt: HostRuntime) -> Result<(), AllocError> {
    let (q, u) = (file_q(rt.alloc())?, file_u(rt.alloc())?);
    let files = [u.as_slice(), q.as_slice()];
    let all = night(rt.alloc(), &[b"u", b"q"], &files, 80000, 20)?;
    let is_first = all.gives(9, &[(3, q.as_slice())]);
    assert!(rt; is_first || all.gives(9, &[(6, q.as_slice())]));
    Ok(())
}

#[test]
fn what_is_no_call_is_answered_so(rt: HostRuntime) -> Result<(), AllocError> {
    let alloc = rt.alloc();
    assert_eq!(rt; night(alloc, &[b"a"], &[], 9, 9)?.status, 3);
    assert_eq!(rt; night(alloc, &[b"\xff"], &[b""], 9, 9)?.status, 3);
    assert_eq!(rt; runs(alloc, 6, b"")?.status, 3);
    assert_eq!(rt; mend(alloc, &[b""])?.status, 3);
    assert!(rt; night(alloc, &[], &[], 9, 9)?.gives(1, &[]));
    Ok(())
}

#[test]
fn runs_are_what_a_number_asks_for(rt: HostRuntime) -> Result<(), AllocError> {
    for (which, prefix, count, pieces) in OF_RUNS.iter().copied() {
        assert!(rt;
            runs(rt.alloc(), which, prefix)?.gives(count, pieces),
            "{which}"
        );
    }
    let picture = runs(rt.alloc(), 2, b"")?;
    assert!(rt; picture.gives(3, &[(0, b"\0")]));
    assert!(rt; !has(picture.piece(1).unwrap_or(b"P7"), b"P7"));
    Ok(())
}

#[test]
fn a_file_is_filled_cut_and_compared(rt: HostRuntime) -> Result<(), AllocError> {
    let alloc = rt.alloc();
    let file = file_p5(alloc)?;
    assert!(rt; runs(alloc, 4, b"")?.gives(3, &[(0, b"\0"), (2, FILLED)]));
    let whole = night(alloc, &[b"p5"], &[file.as_slice()], 40000, 9)?;
    let exact = whole.piece(2).unwrap_or(b"");
    assert!(rt; runs(alloc, 5, b"")?.gives(3, &[(0, b"\0"), (1, exact), (2, b"")]));
    assert!(rt; compare(alloc, file.as_slice())?.gives(3, &[(0, b"\0"), (1, KNOWN), (2, b"")]));
    assert!(rt; compare(alloc, b"no file")?.gives(3, &[(0, b"\x01"), (1, b"")]));
    Ok(())
}

#[test]
fn a_file_is_mended_by_values(rt: HostRuntime) -> Result<(), AllocError> {
    for (number, (values, count, pieces)) in OF_MENDING.iter().copied().enumerate() {
        assert!(rt;
            mend(rt.alloc(), values)?.gives(count, pieces),
            "row {number}"
        );
    }
    let hidden = mend(rt.alloc(), &[b"out.edf", b"", b"", b"S-1", b"", b"", b""])?;
    assert!(rt; !has(hidden.piece(4).unwrap_or(b"P7"), b"P7"));
    Ok(())
}

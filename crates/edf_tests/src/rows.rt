//! Rows of data records, as they are written and read.

use crate::held::Q_START;
use edf_fragment::Record;
use edf_header::Identity;
use edf_rows::{block_of, check_row, record_from, start_of};
use edf_sample::named;
use edf_time::Instant;
use std::alloc::Global;

/// The cell of Q's start.
const START: i64 = Q_START as i64;

const FOUR: &[u8] = b"\x01\x00\xff\xff";

/// The block of that start, and that of two annotations half a second later.
const BLOCK: &[u8] = b"+541727990\x14\x14\x00";

const TWO: &[u8] =
    b"+541727990\x14\x14\x00+541727990.5\x14Snore\x14\x00+541727990.5\x14Turn\x14\x00";

fn identity_q(alloc: Global) -> Option<Identity> {
    let bytes = named::identity_q(alloc).ok()?;
    Identity::from_bytes(alloc, bytes.as_slice()).ok()
}

/// The data record that is read from the samples and the block of a row.
fn record_read(alloc: Global, samples: &[u8], block: &[u8]) -> Option<Record> {
    let samples = Vec::from_slice(alloc, samples).ok()?;
    record_from(alloc, samples, block).ok()?
}

/// Whether a row is a data record's that starts there; `None` where the check answers another
/// start, or the data record that is read has another.
fn is_a_row(alloc: Global, start: i64, samples: &[u8], block: &[u8]) -> Option<bool> {
    let identity = identity_q(alloc)?;
    let Some(checked) = check_row(alloc, &identity, start, samples, block).ok()? else {
        return Some(false);
    };
    let record = record_read(alloc, samples, block)?;
    if start_of(checked) == start && start_of(record.start()) == start {
        Some(true)
    } else {
        None
    }
}

/// Of a data record: its start as a row has it, the text of its second annotation and the onset in
/// nanoseconds, and whether it has these samples and is written as this block.
fn parts(
    alloc: Global,
    record: &Record,
    samples: &[u8],
    block: &[u8],
) -> Option<(i64, String, u64, bool)> {
    let turn = record.notes().get(1)?;
    let text = String::from_str(alloc, turn.text()).ok()?;
    let written = block_of(alloc, record).ok()?;
    let same = record.samples() == samples && written.as_slice() == block;
    Some((start_of(record.start()), text, turn.onset().nanos(), same))
}

/// The same of a row with two annotations, and how many annotations are read.
fn parts_of_two(alloc: Global) -> Option<((i64, String, u64, bool), usize)> {
    match record_read(alloc, FOUR, TWO) {
        Some(record) => Some((parts(alloc, &record, FOUR, TWO)?, record.notes().len())),
        None => None,
    }
}

#[test]
fn a_row_is_read_as_it_was_written(rt: HostRuntime) {
    let Some((read, count)) = parts_of_two(rt.alloc()) else {
        panic!(rt; "no data record, or none of two annotations");
    };
    let (start, text, onset, same) = read;
    assert_eq!(rt;
        (start, onset, same),
        (START, 541_727_990_500_000_000, true)
    );
    assert_eq!(rt; text.as_str(), "Turn");
    assert_eq!(rt; count, 2);
}

/// The block of a data record without annotations.
fn block_without(alloc: Global) -> Option<Vec<u8>> {
    let start = Instant::at(Q_START)?;
    let samples = Vec::from_slice(alloc, FOUR).ok()?;
    let record = Record::new(start, samples, Vec::new(alloc))?;
    block_of(alloc, &record).ok()
}

#[test]
fn a_record_without_annotations_has_a_block(rt: HostRuntime) {
    let block = block_without(rt.alloc());
    assert_eq!(rt; block.as_deref(), Some(BLOCK));
}

/// A start, samples and a block, and whether they are a row of a data record.
const ROWS: &[(i64, &[u8], &[u8], bool)] = &[
    // the start is that of the block, and inside the window
    (START, FOUR, BLOCK, true),
    (0, FOUR, b"+0\x14\x14\0", true),
    (
        3_155_759_999_000_000_000,
        FOUR,
        b"+3155759999\x14\x14\0",
        true,
    ),
    (
        3_155_760_000_000_000_000,
        FOUR,
        b"+3155760000\x14\x14\0",
        true,
    ),
    (
        6_311_433_599_000_000_000,
        FOUR,
        b"+6311433599\x14\x14\0",
        true,
    ),
    (
        6_311_433_600_000_000_000,
        FOUR,
        b"+6311433600\x14\x14\0",
        false,
    ),
    (-1, FOUR, b"-0.000000001\x14\x14\0", false),
    (START + 1, FOUR, BLOCK, false),
    (-START, FOUR, BLOCK, false),
    // there are as many samples as the identity says
    (START, b"", BLOCK, false),
    (START, b"\x01\x00", BLOCK, false),
    (START, b"\x01\x00\xff\xff\x00\x00", BLOCK, false),
    // the block is spelled as it would be written
    (START, FOUR, TWO, true),
    (START, FOUR, b"+541727990.0\x14\x14\0", false),
    (START, FOUR, b"+0541727990\x14\x14\0", false),
    (START, FOUR, b"+541727990\x14\x14\0\0", false),
    (START, FOUR, b"+541727990\x14Turn\x14\0", false),
    (START, FOUR, b"+541727990\x14\x14Turn\x14\0", false),
    (
        START,
        FOUR,
        b"+541727990\x14\x14\0+541727991\x14Snore\x14Turn\x14\0",
        false,
    ),
    (START, FOUR, b"+541727990\x14\x14\0+1\x14\xff\x14\0", false),
    (START, FOUR, b"", false),
    (START, FOUR, b"+541727990\x14\x14", false),
];

#[test]
fn a_row_is_that_of_a_record_by_its_start_its_samples_and_its_spelling(rt: HostRuntime) {
    for (start, samples, block, good) in ROWS.iter().copied() {
        let is_row = is_a_row(rt.alloc(), start, samples, block);
        assert_eq!(rt; is_row, Some(good), "{start} {samples:?} {block:?}");
    }
}

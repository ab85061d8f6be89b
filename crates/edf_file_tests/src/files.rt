//! The files of the tests, built field by field. All are of one recording that begins on 2002-03-02
//! at 23:59:50, with data records of a second unless it is said otherwise.

use edf_sample::{Header, file, q};
use std::alloc::{AllocError, Global};

/// A data record: its number as a sample, and its annotations block, which zeros fill.
fn push_record(
    text: &mut Vec<u8>,
    number: u8,
    block: &[u8],
    bytes: usize,
) -> Result<(), AllocError> {
    text.extend_from_slice(&[number, 0, 1, 0])?;
    text.extend_from_slice(block)?;
    for _ in block.len()..bytes {
        text.push(0)?;
    }
    Ok(())
}

/// The file of a header and of data records with these blocks, which are numbered from `first` on
/// and have room for `bytes` bytes each.
fn file_of(
    alloc: Global,
    header: &Header<'_>,
    first: u8,
    blocks: &[&[u8]],
    bytes: usize,
) -> Option<Vec<u8>> {
    let mut text = Vec::new(alloc);
    for (number, block) in (first..=100).zip(blocks.iter().copied()) {
        push_record(&mut text, number, block, bytes).ok()?;
    }
    file(alloc, header, &[&text]).ok()
}

/// An EDF+D file of so many data records, which are numbered from 1.
fn night(alloc: Global, count: &'static str, blocks: &[&[u8]]) -> Option<Vec<u8>> {
    let header = q().count(count).annotations_samples("18");
    file_of(alloc, &header, 1, blocks, 36)
}

/// The blocks of six data records with two gaps, of 7.5 seconds and of nearly an hour.
const TWO_GAPS: &[&[u8]] = &[
    b"+0.25\x14\x14\0",
    b"+1.25\x14\x14\0+1.5\x14Snore\x14\0",
    b"+2.25\x14\x14\0",
    b"+10.75\x14\x14\0",
    b"+11.75\x14\x14\0+3\x14Early\x14\0+20.5\x150.5\x14Late\x14\0",
    b"+3610\x14\x14\0",
];

pub(crate) fn two_gaps(alloc: Global) -> Option<Vec<u8>> {
    night(alloc, "6", TWO_GAPS)
}

/// The header of a run that begins on the next day at this time.
fn next_day(time: &'static str) -> Header<'static> {
    q().reserved("EDF+C")
        .recording("Startdate 03-MAR-2002 N1 T3 REC5")
        .start("03.03.02", time)
}

/// The file of the second run of `two_gaps`. Two annotations lie outside their data record: one
/// before the file's start, one after its end.
pub(crate) fn second_run(alloc: Global) -> Option<Vec<u8>> {
    let header = next_day("00.00.00").count("2").annotations_samples("17");
    let blocks: &[&[u8]] = &[
        b"+0.75\x14\x14\0",
        b"+1.75\x14\x14\0-7\x14Early\x14\0+10.5\x150.5\x14Late\x14\0",
    ];
    file_of(alloc, &header, 4, blocks, 34)
}

/// The file of the third run of `two_gaps`.
pub(crate) fn third_run(alloc: Global) -> Option<Vec<u8>> {
    let header = next_day("01.00.00").annotations_samples("3");
    file_of(alloc, &header, 6, &[b"+0\x14\x14\0"], 6)
}

/// The blocks of four data records with a gap of 8 seconds, and annotations outside of their data
/// records: before the first run, in it and a nanosecond before its end, at its end, in the gap, at
/// the start of the second run, in it, at its end, and long after it.
const STRAYS: &[&[u8]] = &[
    b"+0.5\x14\x14\0-3\x14Before\x14\0+0.5\x14First\x14\0",
    b"+1.5\x14\x14\0+2.5\x14End\x14\0+11.25\x14Later\x14\0",
    b"+10.5\x14\x14\0+5\x14Gap\x14\0+2.499999999\x14Short\x14\0",
    b"+11.5\x14\x14\0+10.5\x14Moved\x14\0+12.5\x14Past\x14\0+99\x14Far\x14\0",
];

pub(crate) fn strays(alloc: Global) -> Option<Vec<u8>> {
    let header = q().count("4").annotations_samples("24");
    file_of(alloc, &header, 1, STRAYS, 48)
}

/// The file of the first run of `strays`.
pub(crate) fn first_strays(alloc: Global) -> Option<Vec<u8>> {
    let header = q().reserved("EDF+C").count("2").annotations_samples("16");
    file_of(alloc, &header, 1, &STRAYS[..2], 32)
}

/// The file of the second run of `strays`.
pub(crate) fn second_strays(alloc: Global) -> Option<Vec<u8>> {
    let header = next_day("00.00.00").count("2").annotations_samples("20");
    let blocks: &[&[u8]] = &[
        b"+0.5\x14\x14\0-5\x14Gap\x14\0-7.500000001\x14Short\x14\0",
        b"+1.5\x14\x14\0+0.5\x14Moved\x14\0+2.5\x14Past\x14\0+89\x14Far\x14\0",
    ];
    file_of(alloc, &header, 3, blocks, 40)
}

/// Four data records of a tenth of a second, each of which starts where the one before ends.
fn tenths(alloc: Global) -> Option<Vec<u8>> {
    let header = q().count("4").duration("0.1").annotations_samples("4");
    let blocks: &[&[u8]] = &[
        b"+0\x14\x14\0",
        b"+0.1\x14\x14\0",
        b"+0.2\x14\x14\0",
        b"+0.3\x14\x14\0",
    ];
    file_of(alloc, &header, 1, blocks, 8)
}

/// The first run of `two_gaps` in a file of an unknown count, with more room than it needs.
fn loose(alloc: Global) -> Option<Vec<u8>> {
    let header = q().reserved("EDF+C").count("-1").annotations_samples("18");
    file_of(alloc, &header, 1, &TWO_GAPS[..3], 36)
}

/// `two_gaps`, and its last data record once more behind it.
fn grown(alloc: Global) -> Option<Vec<u8>> {
    let mut bytes = two_gaps(alloc)?;
    let last = Vec::from_slice(alloc, bytes.get(968..)?).ok()?;
    bytes.extend_from_slice(last.as_slice()).ok()?;
    Some(bytes)
}

/// The file of a header with Q's data record.
fn of_header(alloc: Global, header: &Header<'_>) -> Option<Vec<u8>> {
    file_of(alloc, header, 1, &[b"+0\x14\x14\0"], 6)
}

/// The file of a name, where there is one.
pub(crate) fn file_named(alloc: Global, name: &str) -> Option<Vec<u8>> {
    match name {
        "two.edf" | "-" => two_gaps(alloc),
        "strays.edf" => strays(alloc),
        "tenths.edf" => tenths(alloc),
        "loose.edf" => loose(alloc),
        "grown.edf" => grown(alloc),
        "one.edf" => night(alloc, "2", &[b"+0\x14\x14\0", b"+1\x14\x14\0"]),
        "overlap.edf" => night(alloc, "2", &[b"+0\x14\x14\0", b"+0.5\x14\x14\0"]),
        "cut.edf" => night(alloc, "3", &[b"+0\x14\x14\0", b"+2\x14\x14\0"]),
        "falling.edf" => of_header(alloc, &q().digital("2047", "-2048")),
        "harry.edf" => of_header(alloc, &q().patient("Haagse Harry")),
        _ => None,
    }
}

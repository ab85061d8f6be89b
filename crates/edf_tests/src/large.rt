//! A recording of which the buffer of an export holds one data record: three of 199,002 bytes each.
//! They have so many samples that each is a page of its own: a walk reads none ahead but the
//! one that it gives next.

use crate::held::{CAP, empty_store, taken};
use edf_sample::{file, q};
use edf_store::Store;
use sqlite::MemStore;
use std::alloc::Global;

/// The bytes of the canonical file of all three.
pub(crate) const LARGE_BYTES: usize = 597_774;

/// The bytes of a data record's block of annotations.
const BLOCK_BYTES: usize = 66_002;

/// A data record: its number, its onset, and how many bytes the text of its annotation has; 0 where
/// it has no annotation.
type Large = (u8, &'static str, usize);

/// The samples of a data record, 66,500 of two bytes each. The samples of another number differ
/// from them.
fn push_samples(bytes: &mut Vec<u8>, number: u8) -> Option<()> {
    for index in 0..133_000usize {
        bytes.push(((index + number as usize) % 251) as u8).ok()?;
    }
    Some(())
}

/// The block of a data record: its onset; an annotation at the onset, where it has one; and zeros.
fn push_block(bytes: &mut Vec<u8>, onset: &str, text: usize) -> Option<()> {
    let end = bytes.len() + BLOCK_BYTES;
    bytes.extend_from_slice(onset.as_bytes()).ok()?;
    bytes.extend_from_slice(b"\x14\x14\0").ok()?;
    if text > 0 {
        bytes.extend_from_slice(onset.as_bytes()).ok()?;
        bytes.push(b'\x14').ok()?;
        for index in 0..text {
            bytes.push(b'a' + (index % 23) as u8).ok()?;
        }
        bytes.extend_from_slice(b"\x14\0").ok()?;
    }
    for _ in bytes.len()..end {
        bytes.push(0).ok()?;
    }
    Some(())
}

/// A file of some of the data records from this time on.
fn file_of(alloc: Global, time: &str, count: &str, records: &[Large]) -> Option<Vec<u8>> {
    let mut body = Vec::new(alloc);
    for (number, onset, text) in records.iter().copied() {
        push_samples(&mut body, number)?;
        push_block(&mut body, onset, text)?;
    }
    let header = q()
        .start("02.03.02", time)
        .count(count)
        .samples("66500")
        .annotations_samples("33001");
    file(alloc, &header, &[body.as_slice()]).ok()
}

/// The text of the second data record. With it, each takes more memory to be read than the one
/// before.
const SHORTER: usize = 55_000;

/// The text of the third, which fills its block.
const LONGEST: usize = 65_992;

/// The canonical file of all three.
pub(crate) fn large_file(alloc: Global) -> Option<Vec<u8>> {
    let records = [(0, "+0", 0), (1, "+1", SHORTER), (2, "+2", LONGEST)];
    file_of(alloc, "23.59.50", "3", &records)
}

/// A store of all three. They came in a file each, the last one first.
pub(crate) fn store_of_large(alloc: Global) -> Option<Store<MemStore>> {
    let mut store = empty_store(alloc, CAP)?;
    for (time, record) in [
        ("23.59.52", (2, "+0", LONGEST)),
        ("23.59.51", (1, "+0", SHORTER)),
        ("23.59.50", (0, "+0", 0)),
    ] {
        let file = file_of(alloc, time, "1", &[record])?;
        taken(alloc, &mut store, &file).ok()?;
    }
    Some(store)
}

//! Reads that fail, and what a reader answers after a refusal.

use edf_fragment::{Counted, FragmentFault, FragmentReader, read_fragment};
use edf_sample::named::{file_k, file_q};
use edf_sample::{Source, file, patched, q};
use edf_tal::TalFault;
use std::alloc::Global;
use std::io;

/// Q, or K without the count of its data records.
pub(crate) fn bytes_of(alloc: Global, name: &str) -> Option<Vec<u8>> {
    match name {
        "q" => file_q(alloc).ok(),
        _ => patched(alloc, &file_k(alloc).ok()?, 236, b"-1").ok(),
    }
}

/// The fault of opening a fragment and those of three calls after that, where there is one.
type Faults = (Option<FragmentFault>, [Option<FragmentFault>; 3]);

fn faults(alloc: Global, input: Source<'_>) -> Faults {
    let mut input = Counted::new(input);
    match FragmentReader::open(alloc, &mut input) {
        Ok(mut reader) => {
            let first = reader.next().err();
            let second = reader.next().err();
            (None, [first, second, reader.next().err()])
        }
        Err(fault) => (Some(fault), [None; 3]),
    }
}

/// The faults of a file whose reads fail from an offset on.
fn faults_of_failing(alloc: Global, name: &str, cut: usize, kind: io::ErrorKind) -> Option<Faults> {
    let bytes = bytes_of(alloc, name)?;
    Some(faults(alloc, Source::failing(&bytes, cut, kind)))
}

/// Files, from which byte on the reads of each fail, and its faults.
fn failed() -> [(&'static str, usize, Faults); 14] {
    let (read, over) = (Some(FragmentFault::Read), Some(FragmentFault::Failed));
    [
        ("q", 0, (read, [None; 3])),
        ("q", 255, (read, [None; 3])),
        ("q", 256, (read, [None; 3])),
        ("q", 300, (read, [None; 3])),
        ("q", 767, (read, [None; 3])),
        ("q", 768, (None, [read, over, over])),
        ("q", 770, (None, [read, over, over])),
        ("q", 777, (None, [read, over, over])),
        ("q", 778, (None, [None, read, over])),
        ("k", 768, (None, [read, over, over])),
        ("k", 777, (None, [read, over, over])),
        ("k", 778, (None, [None, read, over])),
        ("k", 787, (None, [None, read, over])),
        ("k", 788, (None, [None, None, read])),
    ]
}

/// After how many bytes of K without its count, from none on, a failed read is answered as one,
/// also where a data record ends.
fn failed_reads(alloc: Global, kind: io::ErrorKind) -> Option<usize> {
    let bytes = bytes_of(alloc, "k")?;
    for len in 0..799usize {
        let mut input = Counted::new(Source::failing(&bytes, len, kind));
        match read_fragment(alloc, &mut input) {
            Err(FragmentFault::Read) => {}
            _ => return Some(len),
        }
    }
    Some(799)
}

/// The faults of two data records of which the second begins within the first.
fn faults_of_two(alloc: Global) -> Option<Faults> {
    let header = q().count("2").annotations_samples("8");
    let zeros = [0u8; 40];
    let bytes = file(alloc, &header, &[zeros.as_slice()]).ok()?;
    let first = patched(alloc, &bytes, 772, b"+0\x14\x14").ok()?;
    let both = patched(alloc, &first, 792, b"+0.5\x14\x14").ok()?;
    Some(faults(alloc, Source::whole(&both, 100)))
}

#[test]
fn a_fault_is_answered_once_and_then_only_that_the_reader_failed(rt: HostRuntime) {
    for kind in [io::ErrorKind::BrokenPipe, io::ErrorKind::Interrupted] {
        for (name, cut, expected) in failed() {
            let faults = faults_of_failing(rt.alloc(), name, cut, kind);
            assert_eq!(rt; faults, Some(expected), "{name} at {cut}");
        }
        assert_eq!(rt; failed_reads(rt.alloc(), kind), Some(799));
    }
    let order = FragmentFault::Tal {
        nth: 2,
        fault: TalFault::Order,
    };
    let expected = (None, [None, Some(order), Some(FragmentFault::Failed)]);
    assert_eq!(rt; faults_of_two(rt.alloc()), Some(expected));
}

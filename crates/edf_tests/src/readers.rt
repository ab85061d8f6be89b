//! Readers that fail.

use crate::held::{Answer, answer_beside_q, holds_q, store_of_q, submitted, taken};
use edf_fragment::{Counted, FragmentFault};
use edf_intake::Refusal;
use edf_sample::named::file_p5;
use edf_sample::{Source, StopsOnce, file, patched, q};
use edf_store::Store;
use sqlite::MemStore;
use std::alloc::Global;
use std::io::ErrorKind;

/// Whether a store of Q answers E40 and keeps Q alone where a reader of these bytes fails after
/// `cut` of them.
fn is_failed_read(
    alloc: Global,
    store: &mut Store<MemStore>,
    bytes: &[u8],
    cut: usize,
    kind: ErrorKind,
) -> bool {
    let mut input = Counted::new(Source::failing(bytes, cut, kind));
    submitted(alloc, store, &mut input) == Err(Refusal::Read) && holds_q(alloc, store)
}

/// P5, with this text where its count begins.
fn p5(alloc: Global, count: &[u8]) -> Option<Vec<u8>> {
    patched(alloc, &file_p5(alloc).ok()?, 236, count).ok()
}

/// After how many bytes of P5, from none on, a reader that fails is refused so; and what the whole
/// of P5 is answered then.
fn failed_reads(alloc: Global, count: &[u8], kind: ErrorKind) -> Option<(usize, Answer)> {
    let bytes = p5(alloc, count)?;
    let mut store = store_of_q(alloc)?;
    for cut in 0..803usize {
        if !is_failed_read(alloc, &mut store, &bytes, cut, kind) {
            return Some((cut, Err(Refusal::Memory)));
        }
    }
    Some((803, taken(alloc, &mut store, &bytes)))
}

/// The count of a file, 1 or unknown, and how a read fails. A failed read is not the end.
const FAILS: &[(&[u8], ErrorKind)] = &[
    (b"1", ErrorKind::Other),
    (b"1", ErrorKind::Interrupted),
    (b"-1", ErrorKind::Other),
];

#[test]
fn a_reader_that_fails_anywhere_leaves_what_is_held(rt: HostRuntime) {
    for (count, kind) in FAILS.iter().copied() {
        let failed = failed_reads(rt.alloc(), count, kind);
        assert_eq!(rt; failed, Some((803, Ok((1, 0)))), "{count:?} {kind:?}");
    }
}

/// What P5 is answered from a reader that fails once and then goes on, how many reads there were,
/// and what P5 is answered then.
fn failed_once(alloc: Global, count: &[u8], stop: usize) -> Option<(Answer, usize, Answer)> {
    let bytes = p5(alloc, count)?;
    let mut store = store_of_q(alloc)?;
    let mut reads = 0;
    let mut input = Counted::new(StopsOnce::new(&bytes, stop, true, &mut reads));
    let answer = submitted(alloc, &mut store, &mut input);
    drop(input);
    Some((answer, reads, taken(alloc, &mut store, &bytes)))
}

#[test]
fn a_reader_that_fails_once_is_read_no_further_and_its_file_is_accepted_again(rt: HostRuntime) {
    for count in [b"1".as_slice(), b"-1".as_slice()] {
        for stop in [0usize, 1, 255, 256, 767, 768, 801, 802] {
            let answers = failed_once(rt.alloc(), count, stop);
            let expected = (Err(Refusal::Read), stop + 1, Ok((1, 0)));
            assert_eq!(rt; answers, Some(expected), "after {stop} bytes");
        }
    }
}

/// Three data records of which the first differs from Q's, cut inside the third.
fn differing_and_cut(alloc: Global) -> Option<Vec<u8>> {
    let first = b"\0\0\xff\xff+0\x14\x14\0\0";
    let second = b"\x01\0\xff\xff+1\x14\x14\0\0";
    let third = b"\x01\0\xff\xff+2\x14";
    file(alloc, &q().count("3"), &[first, second, third]).ok()
}

/// What a store of Q answers to them, and whether it answers E40 where a reader fails at the cut.
fn answers_to_differing_and_cut(alloc: Global) -> Option<(Answer, bool)> {
    let bytes = differing_and_cut(alloc)?;
    let mut store = store_of_q(alloc)?;
    let failed = is_failed_read(alloc, &mut store, &bytes, bytes.len(), ErrorKind::Other);
    let (answer, kept) = answer_beside_q(alloc, &bytes)?;
    Some((answer, failed && kept))
}

#[test]
fn a_failed_read_is_answered_in_place_of_a_clash_before_it(rt: HostRuntime) {
    let cut = Refusal::Form(FragmentFault::CutRecord { nth: 3 });
    assert_eq!(rt;
        answers_to_differing_and_cut(rt.alloc()),
        Some((Err(cut), true))
    );
}

//! Files that are cut at every byte, and a text of the most bytes and one of a byte more.

use crate::held::{Answer, held, holds_q, store_of_q, taken};
use edf_fragment::FragmentFault;
use edf_header::HeaderFault;
use edf_intake::Refusal;
use edf_sample::named::{file_q, file_u, file_v};
use edf_sample::{file, q};
use edf_tal::TalFault;
use std::alloc::{AllocError, Global};

/// The fault of a file that is cut to `len` bytes, whose header ends at `header` and whose first
/// data record ends at `first`.
fn cut_to(len: usize, header: usize, first: usize) -> FragmentFault {
    if len < 256 {
        FragmentFault::Header(HeaderFault::Cut)
    } else if len < header {
        FragmentFault::Header(HeaderFault::CutSignals)
    } else if len < first {
        FragmentFault::CutRecord { nth: 1 }
    } else {
        FragmentFault::CutRecord { nth: 2 }
    }
}

/// The least length to which a file is cut and a store of Q does not refuse it so, or no longer
/// holds Q alone.
fn refused_cuts(
    alloc: Global,
    bytes: Result<Vec<u8>, AllocError>,
    header: usize,
    first: usize,
) -> Option<usize> {
    let bytes = bytes.ok()?;
    let mut store = store_of_q(alloc)?;
    for len in 0..bytes.len() {
        let refusal = Refusal::Form(cut_to(len, header, first));
        if taken(alloc, &mut store, bytes.get(..len)?) != Err(refusal) {
            return Some(len);
        }
        if !holds_q(alloc, &mut store) {
            return Some(len);
        }
    }
    Some(bytes.len())
}

#[test]
fn a_file_that_is_cut_anywhere_is_refused_by_what_is_cut(rt: HostRuntime) {
    let q = refused_cuts(rt.alloc(), file_q(rt.alloc()), 768, 778);
    assert_eq!(rt; q, Some(778));
    let u = refused_cuts(rt.alloc(), file_u(rt.alloc()), 768, 886);
    assert_eq!(rt; u, Some(1_004));
    let of_two_annotations_signals = refused_cuts(rt.alloc(), file_v(rt.alloc()), 1_024, 1_050);
    assert_eq!(rt; of_two_annotations_signals, Some(1_050));
}

/// One data record with one annotation, whose text has `len` bytes, in a block of `samples`
/// samples.
fn long_text(alloc: Global, len: usize, samples: &str) -> Option<Vec<u8>> {
    let text = vec![in alloc; b'a'; len].ok()?;
    let header = q()
        .start("02.03.02", "23.59.52")
        .annotations_samples(samples);
    let begin = b"\x01\0\xff\xff+0\x14\x14\0+0\x14";
    let fill: &[u8] = if len % 2 == 0 { b"" } else { b"\0" };
    file(alloc, &header, &[begin, &text, b"\x14\0", fill]).ok()
}

/// What a store of Q answers to such a text two seconds after Q, and how many data records it has
/// then.
fn answer_to_text(alloc: Global, len: usize, samples: &str) -> Option<(Answer, u32)> {
    let bytes = long_text(alloc, len, samples)?;
    let mut store = store_of_q(alloc)?;
    let answer = taken(alloc, &mut store, &bytes);
    let (records, _) = held(alloc, &mut store)?;
    Some((answer, records))
}

#[test]
fn a_text_is_accepted_up_to_a_million_bytes(rt: HostRuntime) {
    let longest = answer_to_text(rt.alloc(), 1_000_000, "500005");
    assert_eq!(rt; longest, Some((Ok((1, 0)), 2)));
    let many = Refusal::Form(FragmentFault::Tal {
        nth: 1,
        fault: TalFault::TooMany,
    });
    let too_long = answer_to_text(rt.alloc(), 1_000_001, "500006");
    assert_eq!(rt; too_long, Some((Err(many), 1)));
}

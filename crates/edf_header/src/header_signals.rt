//! Each function here loops over the signals of a header.
ghost use Rattle.std.specs.Prelude.{◌≡◌, ◌++◌, length, OnOk, IfOk, MatchOption, All};
ghost use Rattle.std.specs.List.{flat_map};
ghost use Rattle.edf_header.specs.Signal.{labelled, ordinary, HasSamples, Passes};
ghost use Rattle.edf_header.specs.Header.{blocks_from};
ghost use Rattle.edf_header.specs.Condition.{IsBadSignal};
ghost use Rattle.edf_header.specs.Inside.Rows.{ArePartBytes};

use crate::columns::Columns;
use crate::header::Block;
use crate::signal_checks::{Check, is_labelled, passes, samples_of};
use std::alloc::{AllocError, Global};

/// Returns the first signal that fails a check, counted from 1.
pub(crate) fn bad_signal(check: Check, signals: &Columns<'_>) -> Option<u32>
    ensures { MatchOption result
        (All (Passes check) signals.now) (IsBadSignal check signals.now) }
{
    let n = signals.count();
    for i in 0..n {
        if !passes(check, &signals.row(i)) {
            return Some(i as u32 + 1);
        }
    }
    None
}

/// Returns the number of annotations signals, by their label.
pub(crate) fn count_labelled(signals: &Columns<'_>) -> usize
    ensures { result ≡ length (labelled signals.now) }
{
    let n = signals.count();
    let mut count = 0;
    for i in 0..n {
        if is_labelled(&signals.row(i)) {
            count += 1;
        }
    }
    count
}

/// A data record has so many bytes of ordinary signals, and so many of annotations signals.
#[derive(Clone, Copy)]
pub(crate) struct PartBytes {
    pub(crate) ordinary: usize,
    pub(crate) annotations: usize,
}

/// Returns the bytes that the signals of either kind have in a data record.
pub(crate) fn part_bytes(signals: &Columns<'_>) -> PartBytes
    requires { All HasSamples signals.now }
    ensures { ArePartBytes signals.now result }
{
    let n = signals.count();
    let mut ordinary = 0;
    let mut annotations = 0;
    for i in 0..n {
        let row = signals.row(i);
        let size = 2 * samples_of(&row) as usize;
        if is_labelled(&row) {
            annotations += size;
        } else {
            ordinary += size;
        }
    }
    PartBytes {
        ordinary,
        annotations,
    }
}

/// Returns the annotations blocks of a data record, in file order.
pub(crate) fn blocks_of(alloc: Global, signals: &Columns<'_>) -> Result<Vec<Block>, AllocError>
    requires { All HasSamples signals.now }
    ensures { IfOk result (λ v. v.items ≡ blocks_from 0 signals.now) }
{
    let n = signals.count();
    let mut blocks = Vec::new(alloc);
    let mut at = 0;
    for i in 0..n {
        let row = signals.row(i);
        let size = 2 * samples_of(&row) as usize;
        if is_labelled(&row) {
            blocks.push(Block { at, bytes: size })?;
        }
        at += size;
    }
    Ok(blocks)
}

/// Copies the ordinary signals, each in a row.
pub(crate) fn push_ordinary(out: &mut Vec<u8>, signals: &Columns<'_>) -> Result<(), AllocError>
    ensures { OnOk result
        (out.new.items ≡ out.old.items ++ flat_map (λ s. s) (ordinary signals.now)) }
{
    let n = signals.count();
    for i in 0..n {
        let row = signals.row(i);
        if is_labelled(&row) {
            continue;
        }
        out.extend_from_slice(&row)?;
    }
    Ok(())
}

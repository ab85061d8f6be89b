ghost use Rattle.std.specs.Prelude.{◌≡◌, ◌+◌, ◌-◌, ◌≤◌, ◌<◌, ◌↔◌, ◌++◌, pos, ◌-ℤ◌};
ghost use Rattle.std.specs.Prelude.{unsigned_abs, length, IfOk, IfSome, OnOk, IsTrue};
ghost use Rattle.edf_time.specs.Decimal.{short};
ghost use Rattle.edf_time.specs.Civil.{window};
ghost use Rattle.std.specs.List.{AllByRecursion};
ghost use Rattle.edf_tal.specs.Tal.{IsValidAnnotation};
ghost use Rattle.edf_tal.specs.Block.{IsWithinLimits};
ghost use Rattle.edf_tal.specs.Canonical.{onset_text, duration_text, tal_text, tals_text};

use crate::limits::{MOST_CANONICAL_BLOCK_BYTES, MOST_TEXT_BYTES, MOST_TIMES_BYTES};
use crate::note::Note;
use crate::scan::{DURATION_MARK, TAL_END, TEXT_END};
use edf_time::{Instant, seconds_len, write_seconds};
use std::alloc::{AllocError, Global};

/// Returns the nanoseconds between two instants.
fn distance(base: Instant, onset: Instant) -> u64
    ensures value { result ≡ unsigned_abs (pos onset -ℤ pos base) }
    ensures bound { result < window }
{
    base.nanos().abs_diff(onset.nanos())
}

/// Appends the shortest decimal.
fn push_seconds(alloc: Global, block: &mut Vec<u8>, nanos: u64) -> Result<(), AllocError>
    ensures { OnOk result (block.new.items ≡ block.old.items ++ short nanos) }
{
    let text = write_seconds(alloc, nanos)?;
    block.extend_from_slice(text.as_slice())
}

/// Appends an onset that counts from the base.
fn push_onset(
    alloc: Global,
    block: &mut Vec<u8>,
    base: Instant,
    onset: Instant,
) -> Result<(), AllocError>
    ensures { OnOk result (block.new.items ≡ block.old.items ++ onset_text base onset) }
{
    let sign = if base.nanos() <= onset.nanos() {
        b'+'
    } else {
        b'-'
    };
    block.push(sign)?;
    push_seconds(alloc, block, distance(base, onset))
}

/// Appends byte 21 and the duration, where there is one.
fn push_duration(
    alloc: Global,
    block: &mut Vec<u8>,
    duration: Option<u64>,
) -> Result<(), AllocError>
    ensures { OnOk result (block.new.items ≡ block.old.items ++ duration_text duration) }
{
    match duration {
        None => Ok(()),
        Some(nanos) => {
            block.push(DURATION_MARK)?;
            push_seconds(alloc, block, nanos)
        }
    }
}

/// Appends the TAL of one annotation.
fn push_annotation(
    alloc: Global,
    block: &mut Vec<u8>,
    base: Instant,
    onset: Instant,
    duration: Option<u64>,
    text: &[u8],
) -> Result<(), AllocError>
    ensures { OnOk result (block.new.items ≡ block.old.items
        ++ tal_text base (record { onset = onset; duration = duration; text = text.now })) }
{
    push_onset(alloc, block, base, onset)?;
    push_duration(alloc, block, duration)?;
    block.push(TEXT_END)?;
    block.extend_from_slice(text)?;
    block.extend_from_slice(&[TEXT_END, TAL_END])
}

/// Returns the length of the shortest decimal.
fn short_len(nanos: u64) -> usize
    requires { nanos < window }
    ensures value { result ≡ length (short nanos) }
    ensures bound { result ≤ 20 }
{
    seconds_len(nanos)
}

/// Returns the length of what `push_duration` appends.
fn duration_len(duration: Option<u64>) -> usize
    requires { IfSome duration (λ d. d < window) }
    ensures value { result ≡ length (duration_text duration) }
    ensures bound { result ≤ 21 }
{
    match duration {
        None => 0,
        Some(nanos) => 1 + short_len(nanos),
    }
}

/// Returns the length of the TAL of one annotation.
fn annotation_len(base: Instant, onset: Instant, duration: Option<u64>, text: &[u8]) -> usize
    requires duration { IfSome duration (λ d. d < window) }
    requires text { length text.now ≤ MOST_TEXT_BYTES }
    ensures value { result
        ≡ length (tal_text base (record { onset = onset; duration = duration; text = text.now })) }
    ensures bound { result ≤ MOST_TIMES_BYTES + length text.now }
{
    1 + short_len(distance(base, onset)) + duration_len(duration) + 3 + text.len()
}

/// Returns the number of bytes that `write_block` writes, at most `MOST_CANONICAL_BLOCK_BYTES`.
/// There are at most `MOST_ANNOTATIONS` annotations, with texts of `MOST_TEXT_BYTES` in all. The
/// contract also says what holds of each of them.
pub fn block_len(start: Instant, notes: &[Note], base: Instant) -> usize
    requires { IsWithinLimits notes.now }
    ensures value { result ≡ length (tals_text base start notes.now) }
    ensures bound { result ≤ MOST_CANONICAL_BLOCK_BYTES }
    ensures annotations { AllByRecursion IsValidAnnotation notes.now }
{
    let mut len = annotation_len(base, start, None, b"");
    for note in notes {
        len += annotation_len(base, note.onset(), note.duration(), note.text().as_bytes());
    }
    len
}

/// Writes the canonical annotations block of a data record, without the bytes 0 that fill its
/// signal (EDF+, time-stamped annotations lists).
///
/// The time-keeping annotation is alone in the first TAL, and each other annotation has a TAL of
/// its own, in order. Onsets count from `base`, with `+` where they do not lie before it; every
/// decimal is the shortest. There are at most `MOST_ANNOTATIONS` annotations, with texts of
/// `MOST_TEXT_BYTES` in all.
///
/// # Errors
/// `AllocError` where memory runs out.
pub fn write_block(
    alloc: Global,
    start: Instant,
    notes: &[Note],
    base: Instant,
) -> Result<Vec<u8>, AllocError>
    requires { IsWithinLimits notes.now }
    ensures { IfOk result (λ v. v.items ≡ tals_text base start notes.now) }
{
    let mut block = Vec::with_capacity(alloc, block_len(start, notes, base))?;
    push_annotation(alloc, &mut block, base, start, None, b"")?;
    for note in notes {
        push_annotation(
            alloc,
            &mut block,
            base,
            note.onset(),
            note.duration(),
            note.text().as_bytes(),
        )?;
    }
    Ok(block)
}

/// Is true where two annotations have the same onset, duration and text.
fn is_same(a: &Note, b: &Note) -> bool
    ensures { IsTrue result ↔ (a.now ≡ b.now) }
{
    a.onset() == b.onset() && a.duration() == b.duration() && a.text() == b.text()
}

/// Is true where two lists have the same annotations in the same order. A duration of 0 is not the
/// same as none.
pub fn same_notes(a: &[Note], b: &[Note]) -> bool
    ensures { IsTrue result ↔ (a.now ≡ b.now) }
{
    if a.len() != b.len() {
        return false;
    }
    for (i, note) in a.iter().enumerate() {
        if !is_same(note, &b[i]) {
            return false;
        }
    }
    true
}

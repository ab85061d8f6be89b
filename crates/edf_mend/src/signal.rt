//! A signal of a file, and its good form: it is proposed, and then checked.

ghost use Rattle.std.specs.Prelude.{◌≡◌, ◌+◌, ◌↔◌, ◌≤◌, length, map, IsTrue, IfOk, codes};
ghost use Rattle.std.specs.Prelude.{filter, ℕ, List, MatchOption};
ghost use Rattle.std.specs.Char.{is_ascii_lowercase};
ghost use Rattle.std.specs.Str.{str_to_ascii_lowercase};
ghost use Rattle.edf_mend.specs.Signal.{IsClear, IsOneNumber, KeepsLetters, IsUnmeasured};
ghost use Rattle.edf_mend.specs.Signal.{KeepsLimits, KeepsLine, KeepsOrdinary, KeepsSignal};
ghost use Rattle.edf_mend.specs.Signal.{has_word, SpeaksOfAnnotations};
ghost use Rattle.edf_header.specs.Fields.{label_field};
ghost use Rattle.edf_header.specs.Signal.{IsLabelled, has_label};
ghost use Rattle.edf_mend.specs.Texts.{spaced, letter_row, micro_as_utf8};

use crate::fault::MendFault;
use crate::letters::{DIMENSION_ROWS, TEXT_ROWS, spelled_by};
use crate::number::{good_limit, is_clear, is_numeral, is_one_number, keeps_number, number_at};
use crate::texts::{fitted_as, is_printable, put, spaced, unfilled};
use edf_field::read_signed;
use edf_header::HeaderFault;
use std::alloc::{AllocError, Global};

/// Returns the good form of a text by these rows; `None` where it has no room in its field.
fn good_text(
    alloc: Global,
    rows: &[(u32, u32, &'static [u8])],
    old: &[u8],
) -> Result<Option<Vec<u8>>, AllocError>
    ensures { IfOk result (λ found. MatchOption found
        ((new : List ℕ) → ¬ KeepsLetters (map letter_row rows.now) old.now new)
        (λ r. KeepsLetters (map letter_row rows.now) old.now r.items)) }
{
    let text = spaced(alloc, old)?;
    if is_printable(text.as_slice()) {
        return Ok(Some(text));
    }
    let spelled = spelled_by(alloc, rows, unfilled(old))?;
    if spelled.len() > old.len() {
        return Ok(None);
    }
    Ok(Some(fitted_as(alloc, old, spelled.as_slice())?))
}

/// Returns a dimension whose micro sign, where it begins with that of Shift-JIS, is that of UTF-8.
fn micro_as_utf8(alloc: Global, field: &[u8]) -> Result<Vec<u8>, AllocError>
    ensures { IfOk result (λ r. r.items ≡ micro_as_utf8 field.now) }
{
    if !field.starts_with(&[131, 202]) {
        return Vec::from_slice(alloc, field);
    }
    let mut new = Vec::from_slice(alloc, &[194, 181])?;
    new.extend_from_slice(&field[2..])?;
    Ok(new)
}

// ---- the check

/// Is true where a field of text is the good form of another by these rows.
fn keeps_letters(
    alloc: Global,
    rows: &[(u32, u32, &'static [u8])],
    old: &[u8],
    new: &[u8],
) -> Result<bool, AllocError>
    ensures { IfOk result
        (λ ok. IsTrue ok → KeepsLetters (map letter_row rows.now) old.now new.now) }
{
    match good_text(alloc, rows, old)? {
        Some(text) => Ok(new == text.as_slice()),
        None => Ok(false),
    }
}

/// Is true where nothing is measured: both limits are the digital ones, without a dimension.
fn is_unmeasured(new: &[u8; 256]) -> bool
    ensures { IsTrue result → IsUnmeasured new.now }
{
    &new[104..112] == &new[120..128]
        && &new[112..120] == &new[128..136]
        && &new[96..104] == b"        ".as_slice()
}

/// Is true where two limits clearly are one number.
fn are_one(alloc: Global, low: &[u8], high: &[u8]) -> Result<bool, AllocError>
    requires low { length low.now ≤ 8 }
    requires high { length high.now ≤ 8 }
    ensures { IfOk result (λ ok. IsTrue ok → IsClear low.now × IsClear high.now
        × IsOneNumber low.now high.now) }
{
    if !is_clear(low) || !is_clear(high) {
        return Ok(false);
    }
    Ok(is_one_number(alloc, low, high)?)
}

/// Is true where two limits are the same numbers; or, where they were one number, the digital ones.
fn keeps_limits(
    alloc: Global,
    low: &[u8],
    high: &[u8],
    old: &[u8; 256],
    new: &[u8; 256],
) -> Result<bool, AllocError>
    requires low { length low.now ≤ 8 }
    requires high { length high.now ≤ 8 }
    ensures { IfOk result (λ ok. IsTrue ok → KeepsLimits low.now high.now old.now new.now) }
{
    if is_unmeasured(new) {
        if are_one(alloc, low, high)? {
            return Ok(true);
        }
    }
    if !keeps_number(alloc, low, &new[104..112])? {
        return Ok(false);
    }
    if !keeps_number(alloc, high, &new[112..120])? {
        return Ok(false);
    }
    let dimension = micro_as_utf8(alloc, &old[96..104])?;
    Ok(keeps_letters(alloc, &DIMENSION_ROWS, dimension.as_slice(), &new[96..104])?)
}

/// Is true where the line from digital to physical values stays, its ends in their order.
fn keeps_ends(alloc: Global, old: &[u8; 256], new: &[u8; 256]) -> Result<bool, AllocError>
    ensures { IfOk result (λ ok. IsTrue ok → KeepsLine old.now new.now) }
{
    if !is_numeral(alloc, &old[120..128], &new[120..128])? {
        return Ok(false);
    }
    if !is_numeral(alloc, &old[128..136], &new[128..136])? {
        return Ok(false);
    }
    Ok(keeps_limits(alloc, &old[104..112], &old[112..120], old, new)?)
}

/// Is true where the line from digital to physical values stays, its ends in the other order.
fn swaps_ends(alloc: Global, old: &[u8; 256], new: &[u8; 256]) -> Result<bool, AllocError>
    ensures { IfOk result (λ ok. IsTrue ok → KeepsLine old.now new.now) }
{
    if !is_numeral(alloc, &old[128..136], &new[120..128])? {
        return Ok(false);
    }
    if !is_numeral(alloc, &old[120..128], &new[128..136])? {
        return Ok(false);
    }
    Ok(keeps_limits(alloc, &old[112..120], &old[104..112], old, new)?)
}

/// Is true where the line from digital to physical values stays.
fn keeps_line(alloc: Global, old: &[u8; 256], new: &[u8; 256]) -> Result<bool, AllocError>
    ensures { IfOk result (λ ok. IsTrue ok → KeepsLine old.now new.now) }
{
    if keeps_ends(alloc, old, new)? {
        return Ok(true);
    }
    swaps_ends(alloc, old, new)
}

/// Is true where an ordinary signal is the good form of another.
fn keeps_ordinary(alloc: Global, old: &[u8; 256], new: &[u8; 256]) -> Result<bool, AllocError>
    ensures { IfOk result (λ ok. IsTrue ok → KeepsOrdinary old.now new.now) }
{
    if !keeps_letters(alloc, &TEXT_ROWS, &old[0..16], &new[0..16])? {
        return Ok(false);
    }
    if !keeps_letters(alloc, &TEXT_ROWS, &old[16..96], &new[16..96])? {
        return Ok(false);
    }
    if !keeps_letters(alloc, &TEXT_ROWS, &old[136..216], &new[136..216])? {
        return Ok(false);
    }
    if !keeps_letters(alloc, &TEXT_ROWS, &old[224..256], &new[224..256])? {
        return Ok(false);
    }
    Ok(keeps_line(alloc, old, new)?)
}

/// Is true where a row is that of an annotations signal.
pub(crate) fn is_labelled(row: &[u8; 256]) -> bool
    ensures label { IsTrue result ↔ IsLabelled row.now }
    ensures value { result ≡ has_label row.now }
{
    &row[0..16] == b"EDF Annotations ".as_slice()
}

/// Is true where a row is that of an annotations signal, but for zeros that fill its label.
pub(crate) fn was_labelled(alloc: Global, row: &[u8; 256]) -> Result<bool, AllocError>
    ensures { IfOk result (λ ok. IsTrue ok
        → spaced (label_field row.now) ≡ codes "EDF Annotations ") }
{
    let label = spaced(alloc, &row[0..16])?;
    Ok(label.as_slice() == b"EDF Annotations ".as_slice())
}

/// Is true where a signal is the good form of another.
pub(crate) fn keeps_signal(
    alloc: Global,
    old: &[u8; 256],
    new: &[u8; 256],
) -> Result<bool, AllocError>
    ensures { IfOk result (λ ok. IsTrue ok → KeepsSignal old.now new.now) }
{
    if !is_numeral(alloc, &old[216..224], &new[216..224])? {
        return Ok(false);
    }
    if is_labelled(new) {
        return Ok(was_labelled(alloc, old)?);
    }
    Ok(keeps_ordinary(alloc, old, new)?)
}

// ---- labels that speak of annotations

/// Returns the letters of a label, in small ones.
fn small_letters(alloc: Global, label: &[u8]) -> Result<Vec<u8>, AllocError>
    ensures { IfOk result
        (λ r. r.items ≡ filter is_ascii_lowercase (str_to_ascii_lowercase label.now)) }
{
    label
        .iter()
        .map(|b| b.to_ascii_lowercase())
        .filter(|b| b.is_ascii_lowercase())
        .collect(alloc)
}

/// Is true where a text has the word in it.
fn has_word(text: &[u8]) -> bool
    ensures { result ≡ has_word text.now }
{
    let mut left = text;
    while let [_, rest @ ..] = left {
        if left.starts_with(b"annotation".as_slice()) {
            return true;
        }
        left = rest;
    }
    false
}

/// Is true where a label speaks of annotations.
pub(crate) fn speaks_of_annotations(alloc: Global, label: &[u8]) -> Result<bool, AllocError>
    ensures { IfOk result (λ ok. IsTrue ok ↔ SpeaksOfAnnotations label.now) }
{
    let letters = small_letters(alloc, label)?;
    Ok(has_word(letters.as_slice()))
}

// ---- the proposal

/// Returns the row of an annotations signal of so many samples.
pub(crate) fn annotations_row(samples: &[u8]) -> [u8; 256] {
    let mut row = [b' '; 256];
    put(&mut row, 0, 16, b"EDF Annotations".as_slice());
    put(&mut row, 104, 8, b"-1".as_slice());
    put(&mut row, 112, 8, b"1".as_slice());
    put(&mut row, 120, 8, b"-32768".as_slice());
    put(&mut row, 128, 8, b"32767".as_slice());
    put(&mut row, 216, 8, samples);
    row
}

/// Two limits: the lower digital one, or what it stands for, and the upper one.
type Limits = ([u8; 8], [u8; 8]);

/// Returns the digital limits of a signal and the physical ones, swapped where the digital ones
/// fall.
fn limits_of(old: &[u8; 256], nth: u32) -> Result<(Limits, Limits), MendFault> {
    let first = number_at(&old[120..128]);
    let last = number_at(&old[128..136]);
    let (Some(from), Some(to)) = (read_signed(&first), read_signed(&last)) else {
        return Err(MendFault::from(HeaderFault::Digital { signal: nth }));
    };
    let low = eight(&old[104..112]);
    let high = eight(&old[112..120]);
    if from <= to {
        return Ok(((first, last), (low, high)));
    }
    Ok(((last, first), (high, low)))
}

/// Returns a field of eight bytes.
pub(crate) fn eight(field: &[u8]) -> [u8; 8]
    requires { length field.now ≡ 8 }
    ensures { result ≡ field.now }
{
    let mut copy = [0u8; 8];
    copy.copy_from_slice(field);
    copy
}

/// Returns the good form of a limit of a signal.
fn limit_of(alloc: Global, old: &[u8; 8], nth: u32) -> Result<[u8; 8], MendFault> {
    match good_limit(alloc, old)? {
        Some(limit) => Ok(limit),
        None => Err(MendFault::from(HeaderFault::Physical { signal: nth })),
    }
}

/// Writes what a sample means: the limits and the dimension, which begins at this byte of the file.
fn put_line(
    alloc: Global,
    row: &mut [u8; 256],
    old: &[u8; 256],
    nth: u32,
    at: u32,
) -> Result<(), MendFault> {
    let ((from, to), (low, high)) = limits_of(old, nth)?;
    put(row, 120, 8, &from);
    put(row, 128, 8, &to);
    if are_one(alloc, &low, &high)? {
        put(row, 104, 8, &from);
        put(row, 112, 8, &to);
        return Ok(());
    }
    let field = micro_as_utf8(alloc, &old[96..104])?;
    let Some(dimension) = good_text(alloc, &DIMENSION_ROWS, field.as_slice())? else {
        let bad = field
            .iter()
            .position(|b| !(32..=126).contains(b))
            .unwrap_or(0);
        let offset = (at as usize).saturating_add(bad);
        return Err(MendFault::from(HeaderFault::UnprintableSignals { offset }));
    };
    put(row, 96, 8, dimension.as_slice());
    put(row, 104, 8, &limit_of(alloc, &low, nth)?);
    put(row, 112, 8, &limit_of(alloc, &high, nth)?);
    Ok(())
}

/// Writes a text of a signal.
fn put_text(
    alloc: Global,
    row: &mut [u8; 256],
    old: &[u8; 256],
    nth: u32,
    at: usize,
    width: usize,
) -> Result<(), MendFault>
    requires { at + width ≤ 256 }
{
    match good_text(alloc, &TEXT_ROWS, &old[at..at + width])? {
        Some(text) => {
            put(row, at, width, text.as_slice());
            Ok(())
        }
        None => Err(MendFault::Text { signal: nth }),
    }
}

/// Returns the good form of a signal whose dimension begins at this byte, as it is proposed.
pub(crate) fn good_signal(
    alloc: Global,
    old: &[u8; 256],
    nth: u32,
    at: u32,
) -> Result<[u8; 256], MendFault> {
    let samples = number_at(&old[216..224]);
    if was_labelled(alloc, old)? {
        return Ok(annotations_row(&samples));
    }
    let mut row = [b' '; 256];
    put_text(alloc, &mut row, old, nth, 0, 16)?;
    put_text(alloc, &mut row, old, nth, 16, 80)?;
    put_text(alloc, &mut row, old, nth, 136, 80)?;
    put_text(alloc, &mut row, old, nth, 224, 32)?;
    put(&mut row, 216, 8, &samples);
    put_line(alloc, &mut row, old, nth, at)?;
    // letters that ASCII lacks may have stood in the label
    if is_labelled(&row) {
        return Err(MendFault::from(HeaderFault::Annotations));
    }
    Ok(row)
}

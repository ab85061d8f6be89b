//! The word `mended`, which stands behind the recording where that is another than the file says.

ghost use Rattle.std.specs.Prelude.{◌≡◌, ◌↔◌, ◌<◌, ℕ, IsTrue, IfOk};
ghost use Rattle.edf_header.specs.Signal.{row_at};
ghost use Rattle.edf_header.specs.Fields.{fields, recording_field};
ghost use Rattle.edf_mend.specs.Texts.{spaced};
ghost use Rattle.edf_mend.specs.Header.{StaysField, StaysRow, StaysAll, IsMarked, IsMarkedRight};
ghost use Rattle.std.specs.List.{AllByRecursion};

use crate::columns::{Headers, ROW, field_at};
use crate::fault::MendFault;
use crate::signal::is_labelled;
use crate::texts::{fitted_80, is_same, spaced, unfilled};
use crate::wanted::Wanted;
use std::alloc::{AllocError, Global};

/// Is true where a field stays, but for zeros that fill it.
fn is_spaced(alloc: Global, old: &[u8], new: &[u8]) -> Result<bool, AllocError>
    ensures { IfOk result (λ ok. IsTrue ok ↔ (new.now ≡ spaced old.now)) }
{
    let text = spaced(alloc, old)?;
    Ok(new == text.as_slice())
}

/// Is true where all fields of a signal stay.
fn stays_fields(alloc: Global, old: &[u8; 256], new: &[u8; 256]) -> Result<bool, AllocError>
    ensures { IfOk result
        (λ ok. IsTrue ok ↔ AllByRecursion (StaysField old.now new.now) fields) }
{
    for (at, width) in &ROW {
        let was = field_at(old, *at, *width);
        if !is_spaced(alloc, was, field_at(new, *at, *width))? {
            return Ok(false);
        }
    }
    Ok(true)
}

/// Is true where a signal stays.
fn stays_row(alloc: Global, old: &[u8; 256], new: &[u8; 256]) -> Result<bool, AllocError>
    ensures { IfOk result (λ ok. IsTrue ok ↔ StaysRow old.now new.now) }
{
    if is_labelled(new) {
        return Ok(true);
    }
    Ok(stays_fields(alloc, old, new)?)
}

/// Is true where all signals stay.
fn stay_rows(alloc: Global, headers: &Headers<'_>) -> Result<bool, AllocError>
    ensures { IfOk result (λ ok. IsTrue ok ↔ ((i : ℕ) → i < headers.now.n →
        StaysRow (row_at headers.now.second.now headers.now.n i)
        (row_at headers.now.strict_signals.now headers.now.count i))) }
{
    for i in 0..headers.n {
        if !stays_row(alloc, &headers.old_row(i), &headers.new_row(i))? {
            return Ok(false);
        }
    }
    Ok(true)
}

/// Is true where what names a recording is what the file says, and its start is, too.
pub(crate) fn stays_all(
    alloc: Global,
    wanted: &Wanted,
    headers: &Headers<'_>,
    text: &[u8],
) -> Result<bool, AllocError>
    ensures { IfOk result (λ ok. IsTrue ok ↔ StaysAll wanted.now headers.now.n headers.now.first.now
        headers.now.second.now text.now headers.now.count headers.now.strict.now
        headers.now.strict_signals.now) }
{
    let (old, new) = (headers.first, headers.strict);
    if wanted.startdate.is_some() || wanted.starttime.is_some() {
        return Ok(false);
    }
    if !is_same(text, unfilled(&old[88..168])) {
        return Ok(false);
    }
    if !is_spaced(alloc, &old[8..88], &new[8..88])? {
        return Ok(false);
    }
    if !is_spaced(alloc, &old[244..252], &new[244..252])? {
        return Ok(false);
    }
    Ok(stay_rows(alloc, headers)?)
}

/// Returns the field of a text and the mark.
pub(crate) fn marked(alloc: Global, text: &[u8]) -> Result<[u8; 80], MendFault>
    ensures { IfOk result (IsMarked text.now) }
{
    if text.ends_with(b" mended".as_slice()) {
        if text.len() > 80 {
            return Err(MendFault::NoRoom);
        }
        return Ok(fitted_80(text));
    }
    if text.len() > 73 {
        return Err(MendFault::NoRoom);
    }
    let mut made = Vec::from_slice(alloc, text)?;
    made.extend_from_slice(b" mended".as_slice())?;
    Ok(fitted_80(made.as_slice()))
}

/// Is true where a recording field has the mark just where it must.
pub(crate) fn is_marked_right(
    alloc: Global,
    wanted: &Wanted,
    headers: &Headers<'_>,
    text: &[u8],
) -> Result<bool, MendFault>
    ensures { IfOk result (λ ok. IsTrue ok → IsMarkedRight (StaysAll wanted.now headers.now.n
        headers.now.first.now headers.now.second.now text.now headers.now.count
        headers.now.strict.now headers.now.strict_signals.now) text.now
        (recording_field headers.now.strict.now)) }
{
    let stays = stays_all(alloc, wanted, headers, text)?;
    let field = if stays {
        fitted_80(text)
    } else {
        marked(alloc, text)?
    };
    let strict = headers.strict;
    Ok(is_same(&strict[88..168], &field))
}

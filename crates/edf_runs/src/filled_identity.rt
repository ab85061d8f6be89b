//! The identity of a filled file, which is another recording.

ghost use Rattle.std.specs.Prelude.{◌≡◌, ◌-◌, ◌/◌, ◌≤◌, ◌++◌, ◌==◌, IfOk, IfSome, OnOk, Some};
ghost use Rattle.std.specs.Prelude.{length, map, take, slice_get, if◌then◌else◌};
ghost use Rattle.edf_time.specs.Decimal.{short};
ghost use Rattle.edf_field.specs.Text.{padded_to};
ghost use Rattle.edf_header.specs.Key.{key_bytes};
ghost use Rattle.edf_header.specs.Signal.{rows_of, samples};
ghost use Rattle.edf_runs.specs.Filled.{IsFilledKey, IsMarked};
ghost use Rattle.edf_runs.specs.Inside.Renaming.{divided_row, divided_rows, filled_key};

use crate::division::Division;
use edf_header::laws::identity_is_key;
use edf_header::{Identity, push_dated};
use edf_time::write_seconds;
use std::alloc::{AllocError, Global};

/// What the recording field ends with.
const MARK: [u8; 7] = *b" filled";

const SPACES: [u8; 8] = [b' '; 8];

/// Returns how long a field is without the spaces at its end.
fn text_len(field: &[u8]) -> usize
    ensures within { result ≤ length field.now }
    ensures last { ¬ (slice_get (take result field.now) (length (take result field.now) - 1)
        ≡ Some 32) }
    ensures spaces { field.now ≡ padded_to (length field.now) (take result field.now) }
{
    let mut end = field.len();
    while end > 0 && field[end - 1] == b' ' {
        end -= 1;
    }
    end
}

/// Returns a field with the mark behind its last word, or `None` where it has no room.
fn marked(alloc: Global, field: &[u8]) -> Result<Option<Vec<u8>>, AllocError>
    ensures { IfOk result (λ marked. IfSome marked (λ new. IsMarked field.now new.items)) }
{
    let end = text_len(field);
    if field.len() - end < MARK.len() {
        return Ok(None);
    }
    let mut new = Vec::from_slice(alloc, &field[..end])?;
    new.extend_from_slice(MARK.as_slice())?;
    new.extend_from_slice(&field[end + MARK.len()..])?;
    Ok(Some(new))
}

/// Adds a text, and spaces to the width of its field, 8 bytes.
fn push_padded(out: &mut Vec<u8>, text: &[u8]) -> Result<(), AllocError>
    ensures { OnOk result (out.new.items ≡ out.old.items ++ padded_to 8 text.now) }
{
    out.extend_from_slice(text)?;
    let (_, rest) = SPACES.as_slice().split_at(text.len().min(8));
    out.extend_from_slice(rest)?;
    Ok(())
}

/// Adds the row of a signal that has so many samples in a data record, of which a part has as many
/// as its share.
fn push_row(
    alloc: Global,
    out: &mut Vec<u8>,
    row: &[u8],
    size: u32,
    parts: u32,
) -> Result<(), AllocError>
    requires long { length row.now ≡ 256 }
    requires sized { size ≡ samples row.now }
    requires some { 1 ≤ parts }
    ensures { OnOk result (out.new.items ≡ out.old.items ++ divided_row parts row.now) }
{
    if parts == 1 {
        out.extend_from_slice(row)?;
        return Ok(());
    }
    let number = size / parts;
    let text = format!(in alloc; "{number}")?;
    out.extend_from_slice(&row[0..216])?;
    push_padded(out, text.as_bytes())?;
    out.extend_from_slice(&row[224..256])?;
    Ok(())
}

/// Adds the rows of all signals.
fn push_rows(
    alloc: Global,
    out: &mut Vec<u8>,
    rows: &[u8],
    sizes: &[u32],
    parts: u32,
) -> Result<(), AllocError>
    requires whole { length sizes.now ≡ length rows.now / 256 }
    requires sized { sizes.now ≡ map samples (rows_of rows.now) }
    requires some { 1 ≤ parts }
    ensures { OnOk result (out.new.items ≡ out.old.items ++ divided_rows parts (rows_of rows.now)) }
{
    for i in 0..sizes.len() {
        let row = &rows[256 * i..256 * i + 256];
        push_row(alloc, out, row, sizes[i], parts)?;
    }
    Ok(())
}

/// Adds the duration field of the parts.
fn push_duration(
    alloc: Global,
    out: &mut Vec<u8>,
    field: &[u8],
    division: Division,
) -> Result<(), AllocError>
    ensures { OnOk result (out.new.items ≡ out.old.items
        ++ (if division.parts == 1 then field.now else padded_to 8 (short division.unit))) }
{
    if division.parts == 1 {
        out.extend_from_slice(field)?;
        return Ok(());
    }
    let text = write_seconds(alloc, division.unit)?;
    push_padded(out, text.as_slice())
}

/// Returns what follows the Startdate subfield, in the bytes of an identity.
fn after_startdate<'b>(identity: &Identity, bytes: &'b [u8]) -> &'b [u8]
    requires { bytes.now ≡ key_bytes identity.now }
    ensures { result.now ≡ identity.now.after }
{
    identity_is_key(identity);
    if identity.dated() {
        return &bytes[81..140];
    }
    &bytes[81..150]
}

/// Returns the bytes of the identity of a filled file that has this behind the Startdate subfield.
fn filled_bytes(
    alloc: Global,
    identity: &Identity,
    after: &[u8],
    sizes: &[u32],
    division: Division,
) -> Result<Vec<u8>, AllocError>
    requires { sizes.now ≡ map samples identity.now.signals }
    ensures { IfOk result (λ bytes. bytes.items
        ≡ key_bytes (filled_key identity.now after.now division.parts division.unit)) }
{
    identity_is_key(identity);
    let bytes = identity.to_bytes(alloc)?;
    let bytes = bytes.as_slice();
    let mut new = Vec::from_slice(alloc, &bytes[0..80])?;
    push_dated(&mut new, identity.dated(), after)?;
    push_duration(alloc, &mut new, &bytes[150..158], division)?;
    push_rows(
        alloc,
        &mut new,
        identity.signal_rows(),
        sizes,
        division.parts,
    )?;
    Ok(new)
}

/// Returns the identity of the filled file of a recording that has gaps, or `None` where its
/// recording field has no room for the mark.
pub(crate) fn filled_identity(
    alloc: Global,
    identity: &Identity,
    sizes: &[u32],
    division: Division,
) -> Result<Option<Identity>, AllocError>
    requires sized { sizes.now ≡ map samples identity.now.signals }
    requires named { length (short division.unit) ≤ 8 }
    ensures { IfOk result (λ filled. IfSome filled
        (λ key. IsFilledKey identity.now division.parts division.unit key)) }
{
    identity_is_key(identity);
    let bytes = identity.to_bytes(alloc)?;
    let Some(after) = marked(alloc, after_startdate(identity, bytes.as_slice()))? else {
        return Ok(None);
    };
    let new = filled_bytes(alloc, identity, after.as_slice(), sizes, division)?;
    match Identity::from_bytes(alloc, new.as_slice()) {
        Ok(filled) => Ok(Some(filled)),
        Err(_) => Err(AllocError),
    }
}

ghost use Rattle.std.specs.Prelude.{◌≡◌, ◌+◌, ◌*◌, ◌≤◌, [], ◌∷◌, ◌++◌, OnOk, IfOk, codes};
ghost use Rattle.std.specs.Fmt.{decimal};
ghost use Rattle.edf_field.specs.Text.{spaces, padded_to};
ghost use Rattle.edf_header.specs.Signal.{columns, rows_of};
ghost use Rattle.edf_header.specs.Key.{MayStart};
ghost use Rattle.edf_header.specs.Spelled.{startdate_text};
ghost use Rattle.edf_header.specs.Canonical.{annotations_signal, IsCanonicalHeader};

use crate::columns::push_columns;
use crate::identity::Identity;
use crate::limits::{MOST_BLOCK_SAMPLES, MOST_RECORDS, MOST_SIGNALS};
use edf_time::{Instant, date_field, id_date_text, time_field};
use std::alloc::{AllocError, Global};

/// Writes `count` spaces.
fn push_spaces(out: &mut Vec<u8>, count: usize) -> Result<(), AllocError>
    ensures { OnOk result (out.new.items ≡ out.old.items ++ spaces count) }
{
    for _ in 0..count {
        out.push(b' ')?;
    }
    Ok(())
}

/// Writes a text and fills its field with spaces.
fn push_padded(out: &mut Vec<u8>, text: &[u8], width: usize) -> Result<(), AllocError>
    ensures { OnOk result (out.new.items ≡ out.old.items ++ padded_to width text.now) }
{
    out.extend_from_slice(text)?;
    push_spaces(out, width.saturating_sub(text.len()))?;
    Ok(())
}

/// Writes a number without leading zeros and fills its field with spaces.
fn push_number(
    alloc: Global,
    out: &mut Vec<u8>,
    number: u32,
    width: usize,
) -> Result<(), AllocError>
    ensures { OnOk result (out.new.items ≡ out.old.items ++ padded_to width (decimal number)) }
{
    let text = number.to_string(alloc)?;
    push_padded(out, text.as_bytes(), width)?;
    Ok(())
}

/// Returns the header of a canonical file's annotations signal, in a row.
fn annotations_row(alloc: Global, samples: u32) -> Result<Vec<u8>, AllocError>
    ensures { IfOk result (λ v. v.items ≡ annotations_signal samples) }
{
    let mut row = Vec::with_capacity(alloc, 256)?;
    row.extend_from_slice(b"EDF Annotations ".as_slice())?;
    push_spaces(&mut row, 80)?;
    push_spaces(&mut row, 8)?;
    push_padded(&mut row, b"-1".as_slice(), 8)?;
    push_padded(&mut row, b"1".as_slice(), 8)?;
    push_padded(&mut row, b"-32768".as_slice(), 8)?;
    push_padded(&mut row, b"32767".as_slice(), 8)?;
    push_spaces(&mut row, 80)?;
    push_number(alloc, &mut row, samples, 8)?;
    push_spaces(&mut row, 32)?;
    Ok(row)
}

/// Writes the version and the two identifications; the Startdate subfield is `id_date` or `X`.
fn push_identifications(
    out: &mut Vec<u8>,
    identity: &Identity,
    id_date: &[u8; 11],
) -> Result<(), AllocError>
    ensures { OnOk result
        (out.new.items ≡ out.old.items ++ (codes "0       " ++ (identity.now.patient
        ++ (codes "Startdate "
        ++ (startdate_text identity.now.dated id_date.now ++ identity.now.after))))) }
{
    out.extend_from_slice(b"0       ".as_slice())?;
    out.extend_from_slice(identity.patient_field())?;
    out.extend_from_slice(b"Startdate ".as_slice())?;
    if identity.dated() {
        out.extend_from_slice(id_date.as_slice())?;
    } else {
        out.push(b'X')?;
    }
    out.extend_from_slice(identity.after_startdate())?;
    Ok(())
}

/// Writes the fields from the number of header bytes to the number of signals.
fn push_numbers(
    alloc: Global,
    out: &mut Vec<u8>,
    identity: &Identity,
    count: u32,
    signals: u32,
) -> Result<(), AllocError>
    requires { signals ≤ MOST_SIGNALS }
    ensures { OnOk result (out.new.items ≡ out.old.items
        ++ (padded_to 8 (decimal (256 + 256 * signals)) ++ (padded_to 44 (codes "EDF+D")
        ++ (padded_to 8 (decimal count)
        ++ (identity.now.duration ++ padded_to 4 (decimal signals)))))) }
{
    push_number(alloc, out, 256 + 256 * signals, 8)?;
    push_padded(out, b"EDF+D".as_slice(), 44)?;
    push_number(alloc, out, count, 8)?;
    out.extend_from_slice(identity.duration_field())?;
    push_number(alloc, out, signals, 4)?;
    Ok(())
}

/// Writes the headers of the ordinary signals and of the annotations signal, field by field.
fn push_signals(
    alloc: Global,
    out: &mut Vec<u8>,
    rows: &[u8],
    samples: u32,
) -> Result<(), AllocError>
    requires { (1 ≤ samples) × (samples ≤ MOST_BLOCK_SAMPLES) }
    ensures { OnOk result (out.new.items
        ≡ out.old.items ++ columns (rows_of rows.now ++ annotations_signal samples ∷ [])) }
{
    let row = annotations_row(alloc, samples)?;
    push_columns(out, rows, row.as_slice().as_array().unwrap())?;
    Ok(())
}

/// Returns the canonical header of `count` data records of a recording, the first of which starts
/// in the second of `start` (EDF, header record; EDF+, additional specifications and the
/// annotations signal).
///
/// It is EDF+D: 256 bytes, then 256 for each ordinary signal and for the annotations signal, which
/// is last and has `block_samples` samples per data record, two bytes each. `count` is 1 to
/// 99,999,999, `block_samples` 1 to 2,097,152. Where the identity has no date, `start` is before
/// 2085, since only two digits name its year. Every number but those of the identity is without
/// leading zeros.
///
/// # Errors
/// It fails where memory runs out.
pub fn write_header(
    alloc: Global,
    identity: &Identity,
    start: Instant,
    count: u32,
    block_samples: u32,
) -> Result<Vec<u8>, AllocError>
    requires count { (1 ≤ count) × (count ≤ MOST_RECORDS) }
    requires samples { (1 ≤ block_samples) × (block_samples ≤ MOST_BLOCK_SAMPLES) }
    requires may_start { MayStart identity.now start }
    ensures { IfOk result (λ v. IsCanonicalHeader v.items identity.now start count block_samples) }
{
    let id_date = id_date_text(start);
    let date = date_field(start);
    let time = time_field(start);
    let signals = identity.signals() as u32 + 1;
    let mut out = Vec::new(alloc);
    push_identifications(&mut out, identity, &id_date)?;
    out.extend_from_slice(date.as_slice())?;
    out.extend_from_slice(time.as_slice())?;
    push_numbers(alloc, &mut out, identity, count, signals)?;
    push_signals(alloc, &mut out, identity.signal_rows(), block_samples)?;
    Ok(out)
}

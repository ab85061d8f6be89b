//! The filled file of a recording, written in a second reading.

ghost use Rattle.std.specs.Prelude.{ℕ, List, Option, IfOk, IfErr};
ghost use Rattle.std.specs.Io.KnownBytes.{Appends};
ghost use Rattle.edf_header.specs.Key.{MayStart};
ghost use Rattle.edf_runs.specs.Inside.Continuous.{IsContinuousHeader};
ghost use Rattle.edf_runs.specs.Inside.Filling.{IsFilling, KeepsLimits};
ghost use Rattle.edf_runs.specs.declared.filled.FillLimits.{FillLimits};
ghost use Rattle.edf_runs.specs.Outline.{ReadsOutline};
ghost use Rattle.edf_runs.specs.Twice.{IsFilledOut};

use crate::fault::WriteFault;
use crate::filled::Filled;
use crate::filled_places::Places;
use crate::filled_source::FilledSource;
use crate::outline::Outline;
use crate::reading::open_again;
use crate::writing::marked_continuous;
use edf_canonical::{FilePlan, Measure, send};
use edf_fragment::{Input, Output};
use edf_header::laws::identity_is_key;
use edf_header::{Identity, write_header};
use std::alloc::{AllocError, Global};

/// Returns the header of a file without a gap: the canonical one, marked EDF+C.
fn continuous_header(
    alloc: Global,
    identity: &Identity,
    measure: Measure,
) -> Result<Vec<u8>, AllocError>
    requires { MayStart identity.now measure.first }
    ensures { IfOk result (λ header. IsContinuousHeader header.items identity.now measure) }
{
    identity_is_key(identity);
    let plain = write_header(
        alloc,
        identity,
        measure.first,
        measure.records,
        measure.block_samples,
    )?;
    let header = marked_continuous(alloc, plain.as_slice())?;
    Ok(header)
}

/// Returns the header of a filled file.
///
/// # Errors
/// `Undated` where none can name when the file starts, `Memory` where memory runs out.
fn header_of(alloc: Global, filled: &Filled) -> Result<Vec<u8>, WriteFault>
    ensures begins { IfOk result
        (λ header. MayStart filled.now.identity filled.now.measure.first) }
    ensures header { IfOk result
        (λ header. IsContinuousHeader header.items filled.now.identity filled.now.measure) }
{
    if !filled.identity.may_start(filled.measure.first) {
        return Err(WriteFault::Undated);
    }
    match continuous_header(alloc, &filled.identity, filled.measure) {
        Ok(header) => Ok(header),
        Err(_) => Err(WriteFault::Memory),
    }
}

/// Reads a file again, from its first byte, and writes the filled file that was made of its
/// outline.
///
/// One data record is in memory at a time beside a buffer of 256 KiB. The writer is not flushed.
///
/// # Errors
/// `Undated` where no header can name when the file starts; then nothing was read. `Changed` where
/// the file no longer has the data records of the outline; `Read` (E40) where a read failed,
/// `Memory` (E41) where memory ran out, `Write` (E43) where a write failed or took none of some
/// bytes. Then a prefix of the file may have been written.
pub fn write_filled<'o, R: Input, W: Output>(
    alloc: Global,
    input: &mut R,
    outline: &'o Outline,
    filled: &'o Filled,
    out: &mut W,
) -> Result<(), WriteFault>
    ensures written { IfOk result (λ none. (limits : FillLimits) (once rest : Option (List ℕ)) →
        ReadsOutline once rest outline.now → IsFilling outline.now filled.now →
        KeepsLimits limits outline.now filled.now →
        IsFilledOut limits once (R.remaining input.old) (W.contents out.old) (W.contents out.new)) }
    ensures stopped { IfErr result (λ fault. (text : List ℕ)
        × Appends (W.contents out.old) (W.contents out.new) text) }
{
    let header = header_of(alloc, filled)?;
    let mut fragment = open_again(alloc, input, &outline.identity)?;
    let mut source = FilledSource {
        alloc,
        places: Places {
            parts: &filled.parts,
            later: outline.spans.starts.as_slice(),
            notes: filled.notes.as_slice(),
            nth: 0,
            left: 0,
        },
        last: None,
        bytes: filled.identity.ordinary_bytes(),
    };
    let file = FilePlan {
        header: header.as_slice(),
        measure: filled.measure,
    };
    send(alloc, &mut source, &mut fragment, input, &file, out)?;
    Ok(())
}

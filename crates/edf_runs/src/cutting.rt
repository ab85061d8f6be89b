//! The file of those data records of a recording that last in a time, and of all of them.

ghost use Rattle.std.specs.Prelude.{ℕ, List, IfOk, IfErr, MatchResult};
ghost use Rattle.edf_header.specs.Key.{Key};
ghost use Rattle.edf_fragment.specs.Fragment.{DataRecord};
ghost use Rattle.edf_runs.specs.Canonical.{IsCanonicalWritten, IsCanonicalUnwritten};
ghost use Rattle.edf_runs.specs.CutFiles.{IsCutPlan, IsCutWritten, IsCutUnwritten};
ghost use Rattle.edf_runs.specs.Inside.Selecting.{IsMeasuredIn, MeasuresOne};
ghost use Rattle.edf_runs.specs.Outline.{IsOutline};
ghost use Rattle.edf_runs.specs.Written.{CountsCalls};

use crate::cut::{Cut, Window};
use crate::cut_source::CutSource;
use crate::fault::WriteFault;
use crate::outline::Outline;
use crate::reading::open_again;
use crate::spots::{Slot, Spots};
use edf_canonical::{FilePlan, Measure, send};
use edf_fragment::{Input, Output, Record};
use edf_header::laws::{header_is_layout, identity_is_key};
use edf_header::write_header;
use std::alloc::{AllocError, Global};

/// Returns the measure with a data record more, where this one lasts in a window.
fn measure_with(
    alloc: Global,
    window: Window,
    before: Option<Measure>,
    slot: Slot,
) -> Result<Option<Measure>, AllocError>
    ensures { IfOk result (MeasuresOne window before slot) }
{
    if !window.has(slot.start) {
        return Ok(before);
    }
    let Slot { start, notes } = slot;
    match Record::new(start, Vec::new(alloc), notes) {
        Some(bare) => Ok(Some(Measure::after(before, &bare))),
        None => Err(AllocError),
    }
}

/// Returns the measure of those data records of an outline that last in a window; `None` where it
/// has none.
fn measure_of(
    alloc: Global,
    outline: &Outline,
    window: Window,
) -> Result<Option<Measure>, AllocError>
    ensures { IfOk result (IsMeasuredIn outline.now window) }
{
    let mut spots = Spots::of(outline);
    let mut measure: Option<Measure> = None;
    'spots: loop {
        let Some(slot) = spots.take(alloc)? else {
            return Ok(measure);
        };
        measure = measure_with(alloc, window, measure, slot)?;
    }
}

/// Returns the plan of the canonical file of those data records that last, in part at least,
/// between two instants, in nanoseconds; `None` where there are none.
///
/// # Errors
/// It fails where memory runs out.
pub fn plan_cut<'o>(
    alloc: Global,
    outline: &'o Outline,
    from: u64,
    to: u64,
) -> Result<Option<Cut<'o>>, AllocError>
    ensures { IfOk result (IsCutPlan outline.now from to) }
{
    let window = Window {
        from,
        to,
        duration: outline.identity.duration(),
    };
    match measure_of(alloc, outline, window)? {
        Some(measure) => Ok(Some(Cut {
            outline,
            window,
            measure,
        })),
        None => Ok(None),
    }
}

/// Reads a file again, from its first byte, and writes the cut file of its outline (EDF+D). Returns
/// its length in bytes.
///
/// Starts and annotations are those of the outline, and the samples those of this reading. One data
/// record is in memory at a time beside a buffer of 256 KiB. The writer is not flushed.
///
/// # Errors
/// `Undated` where no header can name when the file starts; then nothing was read or written.
/// `Changed` where the file no longer has the data records of its outline; `Read` (E40) where a
/// read failed, `Memory` (E41) where memory ran out, `Write` (E43) where a write failed or took
/// none of some bytes. Then a prefix of the file may have been written.
pub fn write_cut<R: Input, W: Output>(
    alloc: Global,
    input: &mut R,
    cut: &Cut<'_>,
    out: &mut W,
) -> Result<u64, WriteFault>
    ensures written { IfOk result (λ len. (k : Key) (ones : List DataRecord) →
        IsOutline k ones cut.now.outline.now → IsCutWritten (R.remaining input.old)
        (R.remaining input.new) (W.contents out.old) (W.contents out.new) cut.now k ones len) }
    ensures refused { IfErr result (IsCutUnwritten (R.remaining input.old) (W.contents out.old)
        (W.contents out.new) cut.now) }
    ensures counted { CountsCalls (R.failures input.old) (R.failures input.new)
        (W.failures out.old) (W.failures out.new) result }
{
    let identity = &cut.outline.identity;
    let measure = &cut.measure;
    if !identity.may_start(measure.first) {
        return Err(WriteFault::Undated);
    }
    let mut fragment = open_again(alloc, input, identity)?;
    let Ok(header) = write_header(
        alloc,
        identity,
        measure.first,
        measure.records,
        measure.block_samples,
    ) else {
        return Err(WriteFault::Memory);
    };
    header_is_layout(fragment.header());
    let mut source = CutSource {
        alloc,
        window: cut.window,
        spots: Spots::of(cut.outline),
    };
    let file = FilePlan {
        header: header.as_slice(),
        measure: *measure,
    };
    send(alloc, &mut source, &mut fragment, input, &file, out)?;
    let record_bytes = identity.ordinary_bytes() + 2 * measure.block_samples as usize;
    Ok(header.len() as u64 + measure.records as u64 * record_bytes as u64)
}

/// Reads a file again, from its first byte, and writes the canonical file of its outline (EDF+D),
/// which is the cut file of all time. Returns its length in bytes.
///
/// Starts and annotations are those of the outline, and the samples those of this reading. One data
/// record is in memory at a time beside a buffer of 256 KiB. The writer is not flushed.
///
/// # Errors
/// Those of [`write_cut`], but `Undated` never comes.
pub fn write_canonical<R: Input, W: Output>(
    alloc: Global,
    input: &mut R,
    outline: &Outline,
    out: &mut W,
) -> Result<u64, WriteFault>
    ensures answer { (k : Key) (ones : List DataRecord) → IsOutline k ones outline.now →
        MatchResult result (IsCanonicalWritten (R.remaining input.old) (R.remaining input.new)
        (W.contents out.old) (W.contents out.new) k ones)
        (IsCanonicalUnwritten (R.remaining input.old) (W.contents out.old) (W.contents out.new) k
        ones) }
    ensures counted { CountsCalls (R.failures input.old) (R.failures input.new)
        (W.failures out.old) (W.failures out.new) result }
{
    identity_is_key(&outline.identity);
    match plan_cut(alloc, outline, 0, u64::MAX) {
        Ok(Some(cut)) => write_cut(alloc, input, &cut, out),
        // each outline has a data record, which lasts in all time
        Ok(None) => Err(WriteFault::Changed),
        Err(_) => Err(WriteFault::Memory),
    }
}

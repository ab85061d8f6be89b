ghost use Rattle.std.specs.Prelude.{◌≡◌, ◌*◌, ◌≤◌, ◌↔◌, ℕ, List, length, IfOk, IsTrue, MatchResult};
ghost use Rattle.edf_header.specs.Header.{HeaderRecord, AreSignals, layout_of};
ghost use Rattle.edf_header.specs.Fixed.{IsFixed};
ghost use Rattle.edf_header.specs.Fault.{IsFirst, IsSignalsRefusal};
ghost use Rattle.edf_header.specs.Condition.{HasAnnotations};
ghost use Rattle.edf_header.specs.Inside.Rows.{RowsFail, AreSoundRows, ArePartBytes, header_of};

use crate::columns::Columns;
use crate::fault::HeaderFault;
use crate::fixed::Fixed;
use crate::header::Header;
use crate::header_signals::{PartBytes, bad_signal, blocks_of, count_labelled, part_bytes};
use crate::identity::Identity;
use crate::limits::MOST_BLOCK_BYTES;
use crate::signal_checks::{Check, first_unprintable};
use std::alloc::{AllocError, Global};

/// Is true where some signals are ordinary, and some are annotations signals, all of which have
/// what such signals must have.
fn has_annotations(signals: &Columns<'_>) -> bool
    ensures { IsTrue result ↔ HasAnnotations signals.now }
{
    let n = signals.count();
    let labelled = count_labelled(signals);
    if labelled == 0 || labelled == n {
        return false;
    }
    bad_signal(Check::Annotations, signals).is_none()
}

/// Checks all signals, and counts the bytes that those of either kind have in a data record.
fn check_signals(signals: &Columns<'_>) -> Result<PartBytes, HeaderFault>
    ensures { MatchResult result
        (λ parts. AreSoundRows signals.now × ArePartBytes signals.now parts)
        (IsFirst (RowsFail signals.now)) }
{
    if !has_annotations(signals) {
        return Err(HeaderFault::Annotations);
    }
    if let Some(signal) = bad_signal(Check::Physical, signals) {
        return Err(HeaderFault::Physical { signal });
    }
    if let Some(signal) = bad_signal(Check::Digital, signals) {
        return Err(HeaderFault::Digital { signal });
    }
    if let Some(signal) = bad_signal(Check::Samples, signals) {
        return Err(HeaderFault::Samples { signal });
    }
    let parts = part_bytes(signals);
    if parts.ordinary > MOST_BLOCK_BYTES || parts.annotations > MOST_BLOCK_BYTES {
        return Err(HeaderFault::Size);
    }
    Ok(parts)
}

/// Returns the header of a fixed part and of signals that have no fault.
fn header_from(
    alloc: Global,
    fixed: &Fixed,
    signals: &Columns<'_>,
    parts: PartBytes,
) -> Result<Header, AllocError>
    requires fixed { IsFixed fixed.now }
    requires signals { (bytes : List ℕ) × AreSignals bytes (header_of fixed.now signals.now) }
    requires parts { ArePartBytes signals.now parts }
    ensures { IfOk result (λ r. r ≡ layout_of (header_of fixed.now signals.now)) }
{
    let identity = Identity::from_header(alloc, fixed, signals, parts.ordinary)?;
    let blocks = blocks_of(alloc, signals)?;
    Ok(Header {
        identity,
        start: fixed.start(),
        count: fixed.count(),
        blocks,
        annotations_bytes: parts.annotations,
        record_bytes: parts.ordinary + parts.annotations,
    })
}

/// Reads the signal part of a header, which comes after the fixed part: 256 bytes a signal, field
/// by field, each for all signals in turn (EDF, header record; EDF+, the annotations signals).
///
/// A signal's row has ten fields one after the other, of so many bytes: label 16 at 0; transducer
/// type 80 at 16; physical dimension 8 at 96; physical minimum 8 at 104; physical maximum 8 at 112;
/// digital minimum 8 at 120; digital maximum 8 at 128; prefiltering 80 at 136; samples per data
/// record 8 at 216; reserved 32 at 224. Of `n` signals the field of signal `i`, from 0, with
/// `width` bytes at `at` is at `256 + n * at + i * width` of the file.
///
/// # Errors
/// It fails with the first of E14 to E20 that is true of the bytes: `CutSignals`,
/// `UnprintableSignals` with the offset in the file of the first such byte, `Annotations`,
/// `Physical`, `Digital`, `Samples`, `Size`; with `Memory` where memory runs out and none of them
/// is true.
pub fn read_signals(alloc: Global, fixed: Fixed, bytes: &[u8]) -> Result<Header, HeaderFault>
    requires { length bytes.now ≤ 256 * fixed.signal_count }
    ensures { MatchResult result
        (λ r. (h : HeaderRecord) × AreSignals bytes.now h × (h.fixed ≡ fixed) × (r ≡ layout_of h))
        (IsSignalsRefusal bytes.now fixed.signal_count) }
{
    let n = fixed.signals();
    if bytes.len() < 256 * n {
        return Err(HeaderFault::CutSignals);
    }
    if let Some(at) = first_unprintable(bytes) {
        return Err(HeaderFault::UnprintableSignals { offset: 256 + at });
    }
    let signals = Columns::new(bytes, n);
    let parts = match check_signals(&signals) {
        Ok(parts) => parts,
        Err(fault) => return Err(fault),
    };
    match header_from(alloc, &fixed, &signals, parts) {
        Ok(header) => Ok(header),
        Err(_) => Err(HeaderFault::Memory),
    }
}

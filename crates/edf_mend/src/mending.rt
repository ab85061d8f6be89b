//! The canonical file of what is read of a file leniently, by two readings.

ghost use Rattle.std.specs.Prelude.{◌≡◌, IfOk, OnOk, IsTrue, false};
ghost use Rattle.edf_header.specs.Fields.{count_field};
ghost use Rattle.edf_header.specs.Canonical.{IsCanonicalHeader};
ghost use Rattle.edf_header.specs.Key.{MayStart};
ghost use Rattle.edf_mend.specs.Body.{IsUncounted, CountFits, HeaderSizeFits};
ghost use Rattle.edf_mend.specs.Mends.{MendsTo};

use crate::changes::{Change, push_count};
use crate::fault::MendFault;
use crate::opening::{Opened, open};
use crate::reading::{LenientFile, LenientSource};
use crate::texts::{number_in, numeral_text};
use crate::wanted::Wanted;
use edf_canonical::{FilePlan, Measure, Source, send};
use edf_fragment::{FragmentFault, Input, Output};
use edf_header::laws::header_is_layout;
use edf_header::{HeaderFault, Identity, write_header};
use std::alloc::{AllocError, Global};

/// Is true where a field of the count has no digit, or -1.
fn is_uncounted(field: &[u8]) -> bool
    ensures { IsTrue result → IsUncounted field.now }
{
    numeral_text(field) == b"-1".as_slice() || field.iter().all(|b| !b.is_ascii_digit())
}

/// Is true where the field of the count goes with so many data records that are there.
fn count_fits(
    alloc: Global,
    wanted: &Wanted,
    timed: bool,
    first: &[u8; 256],
    records: u32,
) -> Result<bool, AllocError>
    ensures { IfOk result
        (λ ok. IsTrue ok → CountFits wanted.now timed (count_field first.now) records) }
{
    if wanted.all {
        return Ok(true);
    }
    match number_in(alloc, &first[236..244])? {
        Some(counted) => Ok(counted == records || (timed && (counted == 0 || records <= counted))),
        None => Ok(timed && is_uncounted(&first[236..244])),
    }
}

/// Is true where the number of header bytes is that of the signals, or the data records that are
/// counted end with the file.
fn header_size_fits(
    alloc: Global,
    first: &[u8; 256],
    signals: usize,
    records: u32,
    left_out: usize,
) -> Result<bool, AllocError>
    ensures { IfOk result
        (λ ok. IsTrue ok → HeaderSizeFits first.now signals records left_out) }
{
    if let Some(size) = number_in(alloc, &first[184..192])? {
        if signals <= 640 && size as usize == 256 + 256 * signals {
            return Ok(true);
        }
    }
    if left_out != 0 {
        return Ok(false);
    }
    match number_in(alloc, &first[236..244])? {
        Some(counted) => Ok(counted == records),
        None => Ok(false),
    }
}

/// Is true where so many bytes may be left out.
fn may_leave_out(wanted: &Wanted, timed: bool, left_out: usize) -> bool
    ensures { IsTrue result → timed ≡ false → wanted.now.all ≡ false → left_out ≡ 0 }
{
    timed || wanted.all || left_out == 0
}

/// Refuses a file of which so many data records were read, and whose count or size is another.
fn check_body(
    alloc: Global,
    wanted: &Wanted,
    opened: &Opened,
    records: u32,
) -> Result<(), MendFault>
    ensures { OnOk result
        (CountFits wanted.now opened.now.file.timed (count_field opened.now.first) records
        × HeaderSizeFits opened.now.first opened.now.signals records opened.now.file.left_out
        × (opened.now.file.timed ≡ false → wanted.now.all ≡ false → opened.now.file.left_out ≡ 0)) }
{
    let (timed, left_out) = (opened.file.timed, opened.file.left_out);
    if !count_fits(alloc, wanted, timed, &opened.first, records)? {
        return Err(MendFault::Count);
    }
    if !header_size_fits(alloc, &opened.first, opened.signals, records, left_out)? {
        return Err(MendFault::from(HeaderFault::HeaderBytes));
    }
    if !may_leave_out(wanted, timed, left_out) {
        return Err(MendFault::Refused(FragmentFault::Trailing));
    }
    Ok(())
}

/// Is true where so many data records are more than the header counts, and nobody said that all are
/// of this recording.
fn is_past_count(
    alloc: Global,
    wanted: &Wanted,
    opened: &Opened,
    records: u32,
) -> Result<bool, AllocError> {
    let is_counted = opened.file.timed && !wanted.all;
    match number_in(alloc, &opened.first[236..244])? {
        Some(counted) => Ok(is_counted && counted > 0 && records > counted),
        None => Ok(false),
    }
}

/// Returns the measure of what is read of a file.
///
/// # Errors
/// The reason why the file is not mended; `Read` where a read failed, `Memory` where there is none.
pub fn measure<R: Input>(
    alloc: Global,
    input: &mut R,
    wanted: &Wanted,
) -> Result<Measure, MendFault> {
    let mut opened = open(alloc, input, wanted)?;
    let mut source = LenientSource;
    let mut so_far: Option<Measure> = None;
    for _ in 0..u64::MAX {
        match source.next(&mut opened.file, input) {
            Ok(Some(data_record)) => so_far = Some(Measure::after(so_far, &data_record)),
            Ok(None) => break,
            Err(fault) => {
                // what is behind the counted data records may be another file's
                let nth = opened.file.given.saturating_add(1);
                if is_past_count(alloc, wanted, &opened, nth)? {
                    return Err(MendFault::Count);
                }
                return Err(fault);
            }
        }
    }
    let Some(measure) = so_far else {
        return Err(MendFault::Refused(FragmentFault::CutRecord { nth: 1 }));
    };
    check_body(alloc, wanted, &opened, measure.records)?;
    Ok(measure)
}

/// Returns the header of the canonical file.
fn header_of(alloc: Global, identity: &Identity, measure: &Measure) -> Result<Vec<u8>, MendFault>
    ensures { IfOk result (λ v. MayStart identity.now measure.now.first
        × IsCanonicalHeader v.items identity.now measure.now.first measure.now.records
        measure.now.block_samples) }
{
    if !identity.may_start(measure.first) {
        return Err(MendFault::Changed);
    }
    let header = write_header(
        alloc,
        identity,
        measure.first,
        measure.records,
        measure.block_samples,
    )?;
    Ok(header)
}

/// The fields that differ in the header of a file that was mended, and the number of bytes behind
/// its last data record, which are left out.
#[derive(Debug, Drop)]
pub struct Mended {
    /// The fields that differ, in their order, and then the count where it is another.
    pub changes: Vec<Change>,
    /// The number of bytes that are left out.
    pub left_out: usize,
}

/// Reads a file again, and writes the canonical file of what is read of it, which must be what was
/// measured. The writer is not flushed.
///
/// # Errors
/// As `measure`; and `Changed` where the file is not what was measured, `Write` where a write
/// failed or took nothing. A prefix of the file may have been written then.
pub fn write_mended<R: Input, W: Output>(
    alloc: Global,
    input: &mut R,
    wanted: &Wanted,
    measure: &Measure,
    out: &mut W,
) -> Result<Mended, MendFault>
    ensures { IfOk result (λ made. MendsTo wanted.now (R.remaining input.old)
        (R.remaining input.new) (W.contents out.old) (W.contents out.new) made.changes.items
        made.left_out) }
{
    let mut opened = open(alloc, input, wanted)?;
    let header = header_of(alloc, opened.file.header.identity(), measure)?;
    header_is_layout(&opened.file.header);
    let mut source = LenientSource;
    let plan = FilePlan {
        header: header.as_slice(),
        measure: *measure,
    };
    send(alloc, &mut source, &mut opened.file, input, &plan, out)?;
    check_body(alloc, wanted, &opened, measure.records)?;
    let Opened { first, file, .. } = opened;
    let LenientFile {
        mut changes,
        left_out,
        ..
    } = file;
    push_count(alloc, &mut changes, &first[236..244], measure.records)?;
    Ok(Mended { changes, left_out })
}

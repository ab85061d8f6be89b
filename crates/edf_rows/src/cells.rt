//! The cells of one row are read and written.

ghost use Rattle.std.specs.Prelude.{◌≡◌, ◌↔◌, ◌∷◌, [], ℤ, Some, None, List, pos, IfOk, MatchOption};
ghost use Rattle.sqlite_value.specs.declared.value.Value.TheVariants.{Int, Blob};
ghost use Rattle.edf_header.specs.Key.{Key, IsKey};
ghost use Rattle.edf_tal.specs.Tal.{Annotation};
ghost use Rattle.edf_tal.specs.Block.{BlockParsesTo};
ghost use Rattle.edf_tal.specs.declared.place.Place.TheVariants.{Any};
ghost use Rattle.edf_tal.specs.Canonical.{tals_text};
ghost use Rattle.edf_fragment.specs.Fragment.{DataRecord};
ghost use Rattle.edf_rows.specs.Foreign.{IsBadRow};
ghost use Rattle.edf_rows.specs.Rows.{IsRowOf, IsRecordFrom, IsNoRecord};
ghost use Rattle.edf_rows.specs.Inside.Shape.{IsNoBlock, OwnBlock, NoOwnBlock};

use edf_fragment::Record;
use edf_header::Identity;
use edf_tal::{Note, Place, TalFault, read_block, write_block};
use edf_time::Instant;
use std::alloc::{AllocError, Global};

/// Returns 1985-01-01 00:00:00, from which the onsets of a stored block count.
fn base() -> Instant
    ensures { result ≡ 0 }
{
    match Instant::at(0) {
        Some(base) => base,
        None => unreachable!(),
    }
}

/// Reads the start and the annotations of a stored block; `None` where it is no block.
fn read_cell(alloc: Global, block: &[u8]) -> Result<Option<(Instant, Vec<Note>)>, AllocError>
    ensures { IfOk result (λ o. MatchOption o
        (IsNoBlock block.now)
        (λ r. BlockParsesTo block.now 0 Any r.0 r.1.items)) }
{
    match read_block(alloc, block, base(), Place::Any) {
        Ok((start, notes)) => Ok(Some((start, notes))),
        Err(fault) => {
            if fault == TalFault::Memory {
                Err(AllocError)
            } else {
                Ok(None)
            }
        }
    }
}

/// Returns the start of a block, if it is the one that is written for what it parses to.
fn own_start(alloc: Global, block: &[u8]) -> Result<Option<Instant>, AllocError>
    ensures { IfOk result (λ o. MatchOption o
        (NoOwnBlock block.now)
        (λ start. (list : List Annotation) × OwnBlock block.now start list)) }
{
    let Some((start, notes)) = read_cell(alloc, block)? else {
        return Ok(None);
    };
    let written = write_block(alloc, start, notes.as_slice(), base())?;
    if written.as_slice() == block {
        Ok(Some(start))
    } else {
        Ok(None)
    }
}

/// Returns the cell of a start: nanoseconds from 1985-01-01 00:00:00.
pub fn start_of(start: Instant) -> i64
    ensures { result ≡ pos start }
{
    start.nanos() as i64
}

/// Returns the start of a row, if its cells are those of a data record of the identity; `None` if
/// the start is outside the window, the samples are more or fewer than the identity says, or the
/// block is not the one that is written for this start and the annotations that it parses to.
///
/// # Errors
/// `AllocError` where memory runs out, which says nothing of the row.
pub fn check_row(
    alloc: Global,
    identity: &Identity,
    start: i64,
    samples: &[u8],
    block: &[u8],
) -> Result<Option<Instant>, AllocError>
    ensures { IfOk result (λ o. MatchOption o
        (IsBadRow identity.now (Int start ∷ Blob samples.now ∷ Blob block.now ∷ []))
        (λ s. (r : DataRecord) × (s ≡ r.start)
        × IsRowOf identity.now r (Int start ∷ Blob samples.now ∷ Blob block.now ∷ []))) }
{
    if samples.len() != identity.ordinary_bytes() {
        return Ok(None);
    }
    let Some(instant) = own_start(alloc, block)? else {
        return Ok(None);
    };
    if start_of(instant) == start {
        Ok(Some(instant))
    } else {
        Ok(None)
    }
}

/// Returns the data record of a row's samples and block; `None` if the block is refused, or there
/// are more sample bytes than a data record may have. For a row that `check_row` accepts it is the
/// row's. The block is not written again and compared, so it needn't be canonical.
///
/// # Errors
/// `AllocError` where memory runs out, which says nothing of the row.
pub fn record_from(
    alloc: Global,
    samples: Vec<u8>,
    block: &[u8],
) -> Result<Option<Record>, AllocError>
    ensures read { IfOk result (λ o. (r : DataRecord) →
        (o ≡ Some r) ↔ IsRecordFrom samples.items block.now r) }
    ensures none { IfOk result (λ o. (o ≡ None) ↔ IsNoRecord samples.items block.now) }
    ensures row { IfOk result (λ o. (k : Key) (r : DataRecord) (start : ℤ) → IsKey k →
        IsRowOf k r (Int start ∷ Blob samples.items ∷ Blob block.now ∷ []) → o ≡ Some r) }
{
    let Some((start, notes)) = read_cell(alloc, block)? else {
        return Ok(None);
    };
    Ok(Record::new(start, samples, notes))
}

/// Writes the cell of a data record's annotations: a block with onsets from 1985-01-01 00:00:00.
///
/// # Errors
/// `AllocError` where memory runs out.
pub fn block_of(alloc: Global, data_record: &Record) -> Result<Vec<u8>, AllocError>
    ensures { IfOk result
        (λ v. v.items ≡ tals_text 0 data_record.now.start data_record.now.annotations) }
{
    write_block(alloc, data_record.start(), data_record.notes(), base())
}

//! The records of one recording are checked; each row is read once.

ghost use Rattle.std.specs.Prelude.{◌<◌, IfOk, IfErr, MatchOption};
ghost use Rattle.edf_field.specs.Number.{duration_of};
ghost use Rattle.edf_rows.specs.Cells.{records_in};
ghost use Rattle.edf_rows.specs.Foreign.{IsBadRow};
ghost use Rattle.edf_rows.specs.Inside.Checked.{OnlyChecks};
ghost use Rattle.edf_rows.specs.Inside.Records.{IsStartOf, IsNextRow, IsRowRefused, IsWrong};
ghost use Rattle.edf_rows.specs.Inside.Records.{ChecksRecords};
ghost use Rattle.edf_tables.specs.Statement.{HasBothTables, tables, IfClean, Gives};

use crate::cells::check_row;
use edf_header::Identity;
use edf_time::Instant;
use sqlite::types::ValueRef;
use sqlite::{Alter, Connection, Error, ErrorCode, Row, params};
use std::alloc::{AllocError, Global};

/// Returns the start of a row, if it is a data record of the identity.
fn start_in(alloc: Global, identity: &Identity, row: &Row) -> Result<Option<Instant>, AllocError>
    ensures { IfOk result (λ o.
        MatchOption o (IsBadRow identity.now row.now) (IsStartOf identity.now row.now)) }
{
    let Ok(ValueRef::Int(start)) = row.get_ref(0) else {
        return Ok(None);
    };
    let Ok(ValueRef::Blob(samples)) = row.get_ref(1) else {
        return Ok(None);
    };
    let Ok(ValueRef::Blob(block)) = row.get_ref(2) else {
        return Ok(None);
    };
    check_row(alloc, identity, start, samples, block)
}

/// Returns the start of a row, if it may come after the last one, or as the first.
///
/// # Errors
/// `OutOfMemory` where memory runs out; `DatabaseCorrupt` where the row starts before the last one,
/// since the query orders the rows by their starts.
fn next_start(
    alloc: Global,
    identity: &Identity,
    row: &Row,
    last: Option<Instant>,
) -> Result<Option<Instant>, Error>
    ensures answer { IfOk result (λ o.
        MatchOption o (IsWrong identity.now last row.now) (IsNextRow identity.now last row.now)) }
    ensures why { IfErr result (IsRowRefused last row.now) }
{
    let start = match start_in(alloc, identity, row) {
        Ok(Some(start)) => start,
        Ok(None) => return Ok(None),
        Err(_) => return Err(Error::SqliteFailure(ErrorCode::OutOfMemory)),
    };
    let Some(last) = last else {
        return Ok(if identity.may_start(start) {
            Some(start)
        } else {
            None
        });
    };
    if start < last {
        return Err(Error::SqliteFailure(ErrorCode::DatabaseCorrupt));
    }
    if start.nanos() - last.nanos() < identity.duration() {
        Ok(None)
    } else {
        Ok(Some(start))
    }
}

/// Counts the records of a recording; `None` where submissions can't make them: a row is no record
/// of the identity, two start less than a duration apart, the first starts after 2084 and the
/// identity has no date, there is none, or there are more than `cap`.
pub(crate) fn check_recording<S: Alter>(
    alloc: Global,
    conn: &mut Connection<S>,
    recording: i64,
    identity: &Identity,
    cap: u32,
) -> Result<Option<u32>, Error>
    requires long { 0 < duration_of identity.now.duration }
    requires schema { IfClean S.Store conn.old HasBothTables }
    ensures checks { OnlyChecks S.Store conn.old conn.new result }
    ensures answers { Gives S.Store conn.new result
        (ChecksRecords cap identity.now (records_in (tables S.Store conn.old) recording)) }
{
    let mut rows = conn.query(
        "SELECT start, samples, block FROM record WHERE recording = ?1 ORDER BY start",
        params![recording],
    )?;
    let mut last = None;
    for count in 0..u64::from(cap) + 1 {
        let Some(row) = rows.next()? else {
            return Ok(if count == 0 { None } else { Some(count as u32) });
        };
        match next_start(alloc, identity, &row, last)? {
            Some(start) => last = Some(start),
            None => return Ok(None),
        }
    }
    Ok(None)
}

//! One row of the table of recordings is checked, with its records.

ghost use Rattle.std.specs.Prelude.{◌≡◌, IfErr};
ghost use Rattle.edf_rows.specs.Inside.Checked.{OnlyChecks, ChecksRow, first_two};
ghost use Rattle.edf_rows.specs.Rows.{IsRecordingRow};
ghost use Rattle.edf_tables.specs.Statement.{HasBothTables, tables, IfClean, Gives};

use crate::records::check_recording;
use edf_header::{Identity, IdentityFault};
use sqlite::types::ValueRef;
use sqlite::{Alter, Connection, Error, ErrorCode, Row};
use std::alloc::Global;

/// Counts the records of a row's recording; `None` where it is none, or they are bad.
///
/// # Errors
/// `sqlite`'s; `OutOfMemory` where memory runs out, and no other where the row is no recording.
pub(crate) fn check_recording_row<S: Alter>(
    alloc: Global,
    conn: &mut Connection<S>,
    row: &Row,
    cap: u32,
) -> Result<Option<u32>, Error>
    requires schema { IfClean S.Store conn.old HasBothTables }
    ensures checks { OnlyChecks S.Store conn.old conn.new result }
    ensures other { ¬ IsRecordingRow (first_two row.now) →
        IfErr result (λ e. e ≡ Error.SqliteFailure ErrorCode.OutOfMemory) }
    ensures answers { Gives S.Store conn.new result
        (ChecksRow cap (tables S.Store conn.old) row.now) }
{
    let Ok(ValueRef::Int(id)) = row.get_ref(0) else {
        return Ok(None);
    };
    let Ok(ValueRef::Blob(bytes)) = row.get_ref(1) else {
        return Ok(None);
    };
    match Identity::from_bytes(alloc, bytes) {
        Ok(identity) => check_recording(alloc, conn, id, &identity, cap),
        Err(fault) => {
            if fault == IdentityFault::Memory {
                Err(Error::SqliteFailure(ErrorCode::OutOfMemory))
            } else {
                Ok(None)
            }
        }
    }
}

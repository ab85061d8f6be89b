//! The rows that a connection has for its next statement.

ghost use Rattle.std.specs.Prelude.{◌≡◌, true, Ok, IfOk, IfErr};
ghost use Rattle.sqlite_wal.specs.Recovery.{Image};
ghost use Rattle.edfstore_files.specs.ProgramRun.{IsOfNoFiles, IsOpening};

use sqlite::{Connection, Error, ErrorCode, FileStore};
use sqlite_disk::Disk;

const CANNOT_OPEN: Error = Error::SqliteFailure(ErrorCode::CannotOpen);

const NO_MEMORY: Error = Error::SqliteFailure(ErrorCode::OutOfMemory);

/// Is true where a statement was interrupted.
fn is_interrupted(error: &Error) -> bool
    ensures { result ≡ true → error.now ≡ Error.SqliteFailure ErrorCode.OperationInterrupted }
{
    matches!(error, Error::SqliteFailure(ErrorCode::OperationInterrupted))
}

/// Returns why files are not opened, if a statement over them fails so.
fn reason(error: Error) -> Error
    ensures { IsOfNoFiles result }
{
    match error {
        Error::SqliteFailure(ErrorCode::OutOfMemory) => NO_MEMORY,
        _ => CANNOT_OPEN,
    }
}

/// Returns a connection as it was opened, without the rows of its file's check, which are for the
/// next statement. One of them may have grown while the check had all rows of a table: it lies
/// above these, and the C library returns none of them to the system while it is there.
///
/// A statement that is interrupted at its first row drops them, and changes nothing. One over a
/// file without tables meets no row, and there the check made none.
///
/// # Errors
/// Where the statement did not end so: memory ran out, or it says nothing of the files.
pub(crate) fn without_spares<D: Disk + Drop>(
    conn: Connection<FileStore<D>>,
) -> Result<Connection<FileStore<D>>, Error>
    ensures opening { (start : Image) → IsOpening {g = D.Disk} start (Ok conn) →
        IfOk result (λ c. IsOpening {g = D.Disk} start (Ok c)) }
    ensures why { IfErr result IsOfNoFiles }
{
    let mut conn = conn;
    if conn.schema().tables.as_slice().is_empty() {
        return Ok(conn);
    }
    conn.set_step_limit(Some(1));
    let answer = conn.query_row("SELECT name FROM sqlite_schema", &[]);
    conn.set_step_limit(None);
    let error = match answer {
        Ok(_) => return Err(CANNOT_OPEN),
        Err(error) => error,
    };
    if !is_interrupted(&error) {
        return Err(reason(error));
    }
    Ok(conn)
}

//! The result of a run, and how its files are closed or released.

ghost use Rattle.std.specs.Prelude.{◌≡◌, None, Some};
ghost use Rattle.sqlite_wal.specs.Files.{outcomes};
ghost use Rattle.sqlite_wal.specs.Reads.{AreClean};
ghost use Rattle.sqlite_wal.specs.Recovery.{Image};
ghost use Rattle.sqlite_store.specs.FileStore.{files as store_files};
ghost use Rattle.sqlite.specs.Closing.{IsCopied};
ghost use Rattle.sqlite.specs.Files.{HoldsDatabase, file_state};
ghost use Rattle.sqlite.specs.State.{HasCleanDisk, store_error};
ghost use Rattle.sqlite.specs.Tree.{Trees};
ghost use Rattle.edf_cli.specs.Output.{output_change};
ghost use Rattle.edf_cli.specs.declared.status.Status.{Status};
ghost use Rattle.edfstore_files.specs.Close.{AreReleased, IsClosePrinted};

use edf_command::{Status, print_store_not_closed};
use edf_fragment::Output;
use edf_store::StoreFault;
use sqlite::{Connection, Error, ErrorCode, FileStore, Files};
use sqlite_disk::Disk;
use sqlite_trees::error::StoreError;
use sqlite_trees::store::Store;

/// The result of a run, with its files.
#[derive(Drop)]
pub struct EndedRun<D: Disk> {
    /// It is trouble where the files could not be closed.
    pub status: Status,
    /// The error where the end of the run could not copy what is held into the database file: a
    /// call of the disk failed, or memory ran out. A line says so. A refused store copies nothing,
    /// and has none.
    pub failure: Option<Error>,
    pub files: Files<D>,
}

/// Returns the error of `sqlite` for that of a store.
fn error_of(error: StoreError) -> Error
    ensures { result ≡ store_error error }
{
    Error::SqliteFailure(match error {
        StoreError::OutOfMemory => ErrorCode::OutOfMemory,
        StoreError::Io => ErrorCode::SystemIoFailure,
        StoreError::Corrupt => ErrorCode::DatabaseCorrupt,
        StoreError::Full => ErrorCode::DiskFull,
        StoreError::Broken => ErrorCode::Closed,
        StoreError::Unstorable => ErrorCode::TooBig,
    })
}

/// Releases the files of a store that could not be copied, and prints why, which is trouble.
fn give_up<D: Disk + Drop, F: Output>(
    store: FileStore<D>,
    error: StoreError,
    err: &mut F,
) -> EndedRun<D>
    ensures failure { result.failure ≡ Some (store_error error) }
    ensures files { (result.files.log, result.files.db) ≡ store_files store }
    ensures printed { (before : Status) → IsClosePrinted (output_change F.Output err.old err.new)
        result.failure before result.status }
{
    let error = error_of(error);
    EndedRun {
        status: print_store_not_closed(&StoreFault::from(error), err),
        failure: Some(error),
        files: store.close(),
    }
}

/// Copies what is held into the database file, and closes both files; or prints why it could not be
/// copied, which is trouble. Where a failure of the disk had closed the store, nothing is copied,
/// and the files are released as they are.
pub fn close<D: Disk + Drop, F: Output>(
    conn: Connection<FileStore<D>>,
    status: Status,
    err: &mut F,
) -> EndedRun<D>
    ensures copied { result.failure ≡ None → AreClean D.Disk result.files.log result.files.db →
        IsCopied conn result.files }
    ensures closed { result.failure ≡ Some (Error.SqliteFailure ErrorCode.Closed) →
        AreClean D.Disk result.files.log result.files.db →
        HasCleanDisk (file_state conn) × ((image : Image) →
        outcomes D.Disk result.files.log result.files.db image →
        ∥ ((db : Trees) × (file_state conn).may_leave db × HoldsDatabase image db) ∥₁) }
    ensures released { AreReleased conn result.failure result.files }
    ensures printed { IsClosePrinted (output_change F.Output err.old err.new) result.failure status
        result.status }
{
    let mut store = conn.into_store();
    // Again, for what only this store's rollback says of the log.
    store.rollback();
    if store.is_broken() {
        return give_up(store, StoreError::Broken, err);
    }
    match store.checkpoint() {
        Ok(()) => EndedRun {
            status,
            failure: None,
            files: store.close(),
        },
        Err(error) => give_up(store, error, err),
    }
}

/// Releases the files of a connection as they are. What is committed stays in the log.
pub fn leave<D: Disk + Drop>(conn: Connection<FileStore<D>>, status: Status) -> EndedRun<D>
    ensures each { AreClean D.Disk result.files.log result.files.db →
        HasCleanDisk (file_state conn) × ((image : Image) →
        outcomes D.Disk result.files.log result.files.db image →
        ∥ ((db : Trees) × (file_state conn).may_leave db × HoldsDatabase image db) ∥₁) }
    ensures released { AreReleased conn result.failure result.files }
    ensures as_was { (result.status ≡ status) × (result.failure ≡ None) }
{
    EndedRun {
        status,
        failure: None,
        files: conn.into_store().close(),
    }
}

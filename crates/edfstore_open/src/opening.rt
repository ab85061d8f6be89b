//! The opening of the files of a store, which waits where another program has them.

ghost use Rattle.std.specs.Prelude.{◌↔◌, IsTrue};
ghost use Rattle.sqlite_wal.specs.Files.{image_at};
ghost use Rattle.edf_command.specs.Arguments.{meaning};
ghost use Rattle.edfstore_files.specs.ProgramRun.{IsOpening};
ghost use Rattle.edfstore_open.specs.OnFile.{OnlyReads, IsOpeningFor};

use crate::cache_size::pages_at;
use crate::heap::give_back;
use crate::path::{AtPath, look_at};
use crate::same_files::Standing;
use crate::spare::without_spares;
use edf_command::Order;
use edfstore_files::open_path;
use sqlite::{Connection, Error, ErrorCode, FileFrom, FileStore, Leftover, Start, Unknown};
use std::thread;
use std::time::Duration;

const CANNOT_OPEN: Error = Error::SqliteFailure(ErrorCode::CannotOpen);

/// The number of tries to open a store that another program has, with a pause after each: for two
/// seconds. The command before, as in `edfstore list s.db | while read ..`, has ended by then.
const TRIES: u32 = 200;

/// The milliseconds of a pause.
const PAUSE: u64 = 10;

/// Is true where another program has the files.
fn is_busy(error: &Error) -> bool {
    matches!(error, Error::SqliteFailure(ErrorCode::DatabaseBusy))
}

/// A value that stands for what files hold, and does so again at the next try.
pub trait Again {
    /// Returns one that stands for the same.
    fn again(&self) -> Self;
}

impl Again for Unknown {
    fn again(&self) -> Unknown {
        Unknown
    }
}

/// Opens the files of the store at a path with all of their pages in the cache, where there is
/// memory for it and they do not stay open; and once more, as SQLite's port does by itself, where
/// memory ran out then. What remains of the opening that failed is dropped before, and files hold
/// what they held (`edfstore_files::laws`).
fn open_cached<S: Start + Again>(
    rt: &HostRuntime,
    path: &str,
    stay_open: bool,
    start: &S,
) -> Result<Connection<FileStore<FileFrom<S>>>, (Error, Option<Leftover<FileFrom<S>>>)>
    ensures { IsOpening (image_at S.Start) result }
{
    let pages = if stay_open { None } else { pages_at(rt, path) };
    match open_path(rt, path, pages, start.again()) {
        Err((Error::SqliteFailure(ErrorCode::OutOfMemory), rest)) if pages.is_some() => {
            drop(rest);
            open_path(rt, path, None, start.again())
        }
        answer => answer,
    }
}

/// Opens the files of the store at a path, or makes them where there are none. Each page of a new
/// one ends in SQLite's page sum, and where a file has sums each is compared as it is read. Where
/// another program has them, it tries again for two seconds. Where they do not stay open, the cache
/// has all of their pages as long as there is memory. Every other refusal comes at once; for a file
/// that is no database nothing is made.
///
/// `start` stands for what the files hold, whatever that is. No clause speaks of the path that is
/// opened, or of what is done to it before and after.
///
/// # Errors
/// Those of [`open_path`].
pub fn open_when_free<S: Start + Again>(
    rt: &HostRuntime,
    path: &str,
    stay_open: bool,
    start: S,
) -> Result<Connection<FileStore<FileFrom<S>>>, (Error, Option<Leftover<FileFrom<S>>>)>
    ensures { IsOpening (image_at S.Start) result }
{
    if look_at(rt, path) == AtPath::NoDatabase {
        return Err((CANNOT_OPEN, None));
    }
    for _ in 0..TRIES {
        match open_cached(rt, path, stay_open, &start) {
            Err((error, None)) if is_busy(&error) => {
                thread::sleep(rt, Duration::from_millis(PAUSE));
            }
            opened => return opened,
        }
    }
    open_cached(rt, path, stay_open, &start)
}

/// Opens the files of a store that stay open. `standing` notes what its path then stands for, and
/// the memory that only the check of the files took is released.
///
/// # Errors
/// Those of `open_when_free`. Nothing remains where the path does not stand for the files that were
/// opened, or memory ran out once they were: they are released as they are.
pub fn open_standing<S: Start + Again>(
    standing: &Standing<'_>,
    start: S,
) -> Result<Connection<FileStore<FileFrom<S>>>, (Error, Option<Leftover<FileFrom<S>>>)>
    ensures { IsOpening (image_at S.Start) result }
{
    let rt = standing.rt;
    let before = standing.db();
    let conn = match open_when_free(rt, standing.path(), true, start) {
        Ok(conn) => conn,
        Err(refused) => return Err(refused),
    };
    let settled = without_spares(conn);
    give_back(rt.alloc());
    let conn = match settled {
        Ok(conn) => conn,
        Err(error) => return Err((error, None)),
    };
    match standing.keep(before) {
        Ok(()) => Ok(conn),
        Err(error) => Err((error, None)),
    }
}

/// Is true where the command makes no store, if its path names none.
fn only_reads(command: &Order) -> bool
    ensures { IsTrue result ↔ OnlyReads (meaning command.now) }
{
    match command {
        Order::List { .. } | Order::Export { .. } => true,
        Order::Take { .. } | Order::Convert { .. } => false,
    }
}

/// Opens the files at the path of a command, where `at` was seen; or nothing, where there is no
/// store and the command only reads.
pub(crate) fn find<S: Start + Again>(
    rt: &HostRuntime,
    path: &str,
    at: AtPath,
    start: S,
    command: &Order,
) -> Option<Result<Connection<FileStore<FileFrom<S>>>, (Error, Option<Leftover<FileFrom<S>>>)>>
    ensures { IsOpeningFor (image_at S.Start) (meaning command.now) at result }
{
    if at.has_no_store() && only_reads(command) {
        None
    } else {
        Some(open_when_free(rt, path, false, start))
    }
}

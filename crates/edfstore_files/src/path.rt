//! The opening of the files of a store at a path.

ghost use Rattle.std.specs.Prelude.{true, false, IsTrue, IfOk, IfErr};
ghost use Rattle.sqlite_std_file.specs.File.{file_is_usable, IsFresh};
ghost use Rattle.sqlite_wal.specs.Files.{image_at};
ghost use Rattle.edfstore_files.specs.ProgramRun.{IsOfNoFiles, IsOpening};

use sqlite::{Connection, Error, ErrorCode, FileFrom, FileStore, Files, Leftover, Options, Start};
use sqlite_std_file::OpenError;
use std::hash::{BuildHasher, RandomState};
use std::io::ErrorKind;

const CANNOT_OPEN: Error = Error::SqliteFailure(ErrorCode::CannotOpen);

const NO_MEMORY: Error = Error::SqliteFailure(ErrorCode::OutOfMemory);

const BUSY: Error = Error::SqliteFailure(ErrorCode::DatabaseBusy);

/// The pages that a log may have before it is copied into the database file. A copy takes four
/// syncs, so eight times the port's own number spares a night four in ten.
const LOG_PAGES: usize = 8_000;

/// Returns the error of `sqlite` for files at a path that could not be opened.
fn error_of(error: OpenError) -> Error
    ensures { IsOfNoFiles result }
{
    match error {
        OpenError::OutOfMemory => NO_MEMORY,
        OpenError::Busy => BUSY,
        OpenError::Io(error) if error.kind() == ErrorKind::OutOfMemory => NO_MEMORY,
        _ => CANNOT_OPEN,
    }
}

/// Opens the two files at a path. One that SQLite reads as more than a file's name is refused.
fn open_pair<S: Start>(rt: &HostRuntime, path: &str, start: S) -> Result<Files<FileFrom<S>>, Error>
    ensures usable { IfOk result (λ files. IsTrue (file_is_usable S.Start files.log)
        × IsTrue (file_is_usable S.Start files.db)) }
    ensures fresh { IfOk result (λ files. IsFresh true files.log × IsFresh false files.db) }
    ensures why { IfErr result IsOfNoFiles }
{
    if path == ":memory:" || path.starts_with("file:") {
        return Err(CANNOT_OPEN);
    }
    match sqlite_std_file::open(rt, path, start) {
        Ok(files) => Ok(files),
        Err(error) => Err(error_of(error)),
    }
}

/// Returns options with a seed of the system and a cache of `pages`, or of the port's own number.
fn options(rt: &HostRuntime, pages: Option<usize>) -> Result<Options, Error>
    ensures { IfErr result IsOfNoFiles }
{
    let seed = RandomState::new(rt)
        .map_err(|_| CANNOT_OPEN)?
        .hash_one(&0u8);
    let mut options = Options::new(seed);
    options.checkpoint_frames = LOG_PAGES;
    if let Some(pages) = pages {
        options.cache_pages = pages;
    }
    Ok(options)
}

/// Opens the files of the store at a path, for [`run_opened`](crate::run_opened). Where there are
/// none it makes them, with page sums. `pages` is the size of the cache; `None` is the port's own.
///
/// `start` stands for the bytes that the files hold, whatever those are. No clause speaks of the
/// path that is opened, of what is done to it before and after, of page sums, of the cache, or of
/// how long the log grows.
///
/// # Errors
/// Why they can't be opened, and what remains of them. Nothing remains only where a file can't be
/// opened, memory ran out, or another program has it.
pub fn open_path<S: Start>(
    rt: &HostRuntime,
    path: &str,
    pages: Option<usize>,
    start: S,
) -> Result<Connection<FileStore<FileFrom<S>>>, (Error, Option<Leftover<FileFrom<S>>>)>
    ensures { IsOpening (image_at S.Start) result }
{
    let files = match open_pair(rt, path, start) {
        Ok(files) => files,
        Err(error) => return Err((error, None)),
    };
    let options = match options(rt, pages) {
        Ok(options) => options,
        Err(error) => return Err((error, None)),
    };
    match Connection::open_files_with(rt.alloc(), files, options, true) {
        Ok(conn) => Ok(conn),
        Err((error, left)) => Err((error, Some(left))),
    }
}

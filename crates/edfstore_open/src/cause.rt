//! Plain words for a person: that a new store was made, or why one was refused.

ghost use Rattle.std.specs.Prelude.{None};

use crate::ended::Ended;
use crate::path::{AtPath, NO_DATABASE, is_address, look_at, why_none};
use crate::reopen::open_again;
use edf_command::Status;
use edf_fragment::Output;
use edf_os::{FULL, Terminal, print_system_error};
use edf_store::StoreFault;
use edfstore_files::{EndedRun, Watch};
use sqlite::{Error, ErrorCode};
use sqlite_disk::{Disk, Tally};
use sqlite_std_file::OpenError;
use std::io::ErrorKind;

const BUSY: &str = "another program has it open; run this again when that has ended";

const OTHER_TABLES: &str =
    "its tables are not a store's, or have an index or a trigger; it was left as it is";

const OTHER_ROWS: &str = "its rows are such as no submissions leave; put it aside, as it is";

/// A page sum goes wrong in two ways, and which of them it was can't be seen.
const DAMAGED: &str = "the file is damaged, or it was copied without its -wal, so copy both, or it \
    has page sums and sqlite3 wrote or copied it (ANALYZE, VACUUM, .backup): take all its files \
    into a new store; 'man edfstore' has more";

/// It is printed where the path of a store does not stand for the files that are open.
const LOST: &str = "its file or its log was removed, replaced or cut while it was open: \
    what was taken may be lost, so send it again";

/// It is printed where all that there is of a store can be opened, and a file of it is missing.
const UNMADE: &str = "a file of it could not be made: its folder can't be written, or the disk is \
    full";

const OPENS_NOW: &str = "it could not be opened, but now it can, unless its disk has no locks: \
    run this again";

const IN_MEMORY: &str = "a session keeps its store in a file; './:memory:' is a file of that name";

/// The fault for which a store was not opened.
#[derive(Clone, Copy, Drop)]
pub struct Refused {
    pub fault: StoreFault,
    /// It is true where the file was opened and has no table, the first of a store's two alone, or
    /// both and perhaps others after them.
    pub has_our_tables: bool,
}

/// Prints why the store could not be opened. SQLite's port gives no cause, so where the path shows
/// none, what there is of its files is opened again to get one.
fn print_unopened(rt: &HostRuntime, terminal: &Terminal<'_>, path: &str) {
    if is_address(path) {
        return terminal.say(path, "a path that begins with 'file:' is written './file:'");
    }
    if path == ":memory:" {
        return terminal.say(path, IN_MEMORY);
    }
    if let Some(words) = why_none(look_at(rt, path)) {
        return terminal.say(path, words);
    }
    match open_again(rt, path) {
        Ok(()) => terminal.say(path, OPENS_NOW),
        Err(OpenError::Io(error)) if error.kind() == ErrorKind::NotFound => {
            terminal.say(path, UNMADE);
        }
        Err(OpenError::Io(error)) => print_system_error(terminal, path, &error),
        Err(error) => terminal.say(path, error),
    }
}

/// Plain words for an error code of `sqlite`; `None` means print the code itself.
fn code_words(code: ErrorCode) -> Option<&'static str> {
    match code {
        ErrorCode::NotADatabase => Some(NO_DATABASE),
        ErrorCode::DatabaseCorrupt => Some("the file is damaged"),
        ErrorCode::DatabaseBusy => Some(BUSY),
        ErrorCode::DiskFull => Some(FULL),
        ErrorCode::SystemIoFailure => Some("the disk could not be read or written"),
        ErrorCode::Closed => Some("a failure of the disk closed it"),
        _ => None,
    }
}

/// Prints why `sqlite` refused a store.
fn print_error(rt: &HostRuntime, terminal: &Terminal<'_>, path: &str, error: Error) {
    let Error::SqliteFailure(code) = error else {
        return terminal.say(path, error);
    };
    if code == ErrorCode::CannotOpen {
        return print_unopened(rt, terminal, path);
    }
    match code_words(code) {
        Some(words) => terminal.say(path, words),
        None => terminal.say(path, code),
    }
}

/// Prints why a store was not opened, by an error of `sqlite`.
fn print_refusal(rt: &HostRuntime, terminal: &Terminal<'_>, path: &str, error: Error) {
    match error {
        Error::SqliteFailure(ErrorCode::DatabaseCorrupt) => terminal.say(path, DAMAGED),
        _ => print_error(rt, terminal, path, error),
    }
}

/// Prints why a store was not opened. Out of memory has no further cause.
pub fn print_cause(rt: &HostRuntime, terminal: &Terminal<'_>, path: &str, refused: &Refused) {
    if !terminal.prints_causes() {
        return;
    }
    match refused.fault {
        StoreFault::Store(Some(error)) => print_refusal(rt, terminal, path, error),
        StoreFault::Foreign if refused.has_our_tables => terminal.say(path, OTHER_ROWS),
        StoreFault::Foreign => terminal.say(path, OTHER_TABLES),
        _ => {}
    }
}

/// Prints that the path of a store does not stand for the files that are open, or were.
pub fn print_lost(terminal: &Terminal<'_>, path: &str) {
    terminal.say(path, LOST);
}

/// Returns what the disk refused, by the counts of its failed calls.
fn disk_failure(tally: Tally) -> Option<Error> {
    if tally.caught > 0 {
        Some(Error::SqliteFailure(ErrorCode::DatabaseCorrupt))
    } else if tally.refused > 0 {
        Some(Error::SqliteFailure(ErrorCode::DiskFull))
    } else {
        None
    }
}

/// Prints what failed of the disk in a run or a session, or as its files were closed, if that is
/// known.
pub fn print_failure_of<D: Disk>(
    rt: &HostRuntime,
    terminal: &Terminal<'_>,
    path: &str,
    session: &EndedRun<D>,
) {
    if terminal.prints_causes()
        && let Some(failure) = disk_failure(session.files.tally()).or(session.failure)
    {
        print_error(rt, terminal, path, failure);
    }
}

/// A watch that prints for a person that a new store was made, and notes why one was refused.
#[derive(Drop)]
pub(crate) struct Teller<'t> {
    terminal: &'t Terminal<'t>,
    path: &'t str,
    at: AtPath,
    refused: Option<Refused>,
}

impl<'t> Teller<'t> {
    /// Returns a watch of the store at a path, where this was seen.
    pub(crate) fn new(terminal: &'t Terminal<'t>, path: &'t str, at: AtPath) -> Teller<'t> {
        Teller {
            terminal,
            path,
            at,
            refused: None,
        }
    }

    /// Prints that there is no store.
    pub(crate) fn print_missing(&self) {
        self.terminal.advise(
            self.path,
            match self.at {
                AtPath::EmptyFile => "an empty file",
                _ => "no such file",
            },
        );
    }

    /// Prints why the store was refused, or what failed of the disk in a run that is trouble.
    pub(crate) fn print_ended<D: Disk>(&self, rt: &HostRuntime, ended: &Ended<D>) {
        if let Some(refused) = self.refused {
            print_cause(rt, self.terminal, self.path, &refused);
        } else if let Ended::Run(session) = ended
            && session.status == Status::Trouble
        {
            print_failure_of(rt, self.terminal, self.path, session);
        }
    }
}

impl Watch for Teller<'_> {
    ghost noticed = { λ _. None };

    fn opened<O: Output>(&mut self, _out: &O) {
        self.at.print_made(self.terminal, self.path);
    }

    fn refused(&mut self, fault: &StoreFault, has_our_tables: bool) {
        self.refused = Some(Refused {
            fault: *fault,
            has_our_tables,
        });
    }
}

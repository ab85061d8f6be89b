//! The path of a store, and the files that a session has open of it.

ghost use Rattle.std.specs.Prelude.{◌≡◌, ◌⊎◌, IfErr};

use crate::path::{AtPath, look_at};
use edf_os::Terminal;
use sqlite::{Error, ErrorCode};
use std::cell::{Cell, RefCell};
use std::fs::{self, Metadata};
use std::io::{self, ErrorKind};
use std::os::unix::fs::MetadataExt;

const CANNOT_OPEN: Error = Error::SqliteFailure(ErrorCode::CannotOpen);

const NO_MEMORY: Error = Error::SqliteFailure(ErrorCode::OutOfMemory);

/// The numbers by which the system distinguishes a file or a folder from every other.
#[derive(Clone, Copy, PartialEq, Eq)]
pub(crate) struct Node {
    device: u64,
    number: u64,
}

/// A file that is there.
#[derive(Clone, Copy)]
struct RegularFile {
    node: Node,
    bytes: u64,
}

/// Returns a regular file that has bytes and a name, where the system says that it is there.
fn regular(found: io::Result<Metadata>) -> Option<RegularFile> {
    let found = found.ok()?;
    if !found.is_file() || found.nlink() == 0 || found.len() == 0 {
        return None;
    }
    let node = Node {
        device: found.dev(),
        number: found.ino(),
    };
    Some(RegularFile {
        node,
        bytes: found.len(),
    })
}

/// Returns the path that a path leads to: itself, where it is no link.
fn end_of(rt: &HostRuntime, path: &str) -> io::Result<String> {
    if fs::symlink_metadata(rt, path)?.is_symlink() {
        let end = fs::canonicalize(rt, path)?;
        return Ok(String::from_str(rt.alloc(), end.as_str())?);
    }
    Ok(String::from_str(rt.alloc(), path)?)
}

/// The two files of a store that is open.
#[derive(Drop)]
struct Held {
    /// The path of the log, beside the database file, where the path of the store leads.
    log_path: String,
    db: Node,
    log: Node,
    /// The most bytes that the log had. It gets no shorter while the store is open: it is cut as
    /// the store is opened and as it is closed, and else written from its start on.
    log_bytes: u64,
}

impl Held {
    /// Returns the files of the store at a path, where they are there.
    ///
    /// # Errors
    /// Where its path leads nowhere, or there is no memory for it.
    fn of(rt: &HostRuntime, path: &str) -> io::Result<Option<Held>> {
        let path = end_of(rt, path)?;
        let log_path = format!(in rt.alloc(); "{}-wal", path.as_str())?;
        let Some(db) = regular(fs::metadata(rt, path.as_str())) else {
            return Ok(None);
        };
        let Some(log) = regular(fs::symlink_metadata(rt, log_path.as_str())) else {
            return Ok(None);
        };
        Ok(Some(Held {
            log_path,
            db: db.node,
            log: log.node,
            log_bytes: log.bytes,
        }))
    }

    /// Is true where a path still stands for them, and nothing is cut off the log.
    fn stand(&mut self, rt: &HostRuntime, path: &str) -> bool {
        let Some(db) = regular(fs::metadata(rt, path)) else {
            return false;
        };
        let Some(log) = regular(fs::symlink_metadata(rt, self.log_path.as_str())) else {
            return false;
        };
        if db.node != self.db || log.node != self.log {
            return false;
        }
        let is_whole = log.bytes >= self.log_bytes;
        self.log_bytes = log.bytes;
        is_whole
    }
}

/// The path of a store, with the files that are open of it.
///
/// A session asks before and after each file that it takes whether the path stands for them: so it
/// sees what was cut off the log before a file came, although the log grows again by that file.
/// Files that were once lost stay so.
#[derive(Drop)]
pub struct Standing<'p> {
    pub(crate) rt: &'p HostRuntime,
    path: &'p str,
    /// What there was at the path before the store was opened.
    found: AtPath,
    held: RefCell<Option<Held>>,
    is_lost: Cell<bool>,
}

impl<'p> Standing<'p> {
    /// Returns the standing of the store at a path, which is not open yet.
    pub fn new(rt: &'p HostRuntime, path: &'p str) -> Standing<'p> {
        Standing {
            rt,
            path,
            found: look_at(rt, path),
            held: RefCell::new(None),
            is_lost: Cell::new(false),
        }
    }

    pub fn path(&self) -> &'p str {
        self.path
    }

    /// Prints for a person that a store was made, where there was none before it was opened.
    pub fn print_made(&self, terminal: &Terminal<'_>) {
        self.found.print_made(terminal, self.path);
    }

    /// Returns the database file of the path, if it has one.
    pub(crate) fn db(&self) -> Option<Node> {
        let found = regular(fs::metadata(self.rt, self.path))?;
        Some(found.node)
    }

    /// Notes what the path stands for once the store is open; `before` was its database file, if it
    /// had one.
    ///
    /// # Errors
    /// `CannotOpen` where it is another now or not there, `OutOfMemory` where memory ran out.
    pub(crate) fn keep(&self, before: Option<Node>) -> Result<(), Error>
        ensures { IfErr result (λ e. (e ≡ Error.SqliteFailure ErrorCode.CannotOpen)
            ⊎ (e ≡ Error.SqliteFailure ErrorCode.OutOfMemory)) }
    {
        let held = match Held::of(self.rt, self.path) {
            Ok(held) => held,
            Err(error) if error.kind() == ErrorKind::OutOfMemory => return Err(NO_MEMORY),
            Err(_) => None,
        };
        let is_other = match &held {
            Some(held) => before.is_some() && before != Some(held.db),
            None => true,
        };
        if is_other {
            self.is_lost.set(true);
            return Err(CANNOT_OPEN);
        }
        match self.held.try_borrow_mut() {
            Ok(mut kept) => {
                *kept = held;
                Ok(())
            }
            Err(_) => Err(CANNOT_OPEN),
        }
    }

    /// Is true where the path stands for the files that are open, and did so at every call before.
    pub fn stands(&self) -> bool {
        let stands = match self.held.try_borrow_mut() {
            Ok(mut held) => match held.as_mut() {
                Some(held) => held.stand(self.rt, self.path),
                None => false,
            },
            Err(_) => false,
        };
        if !stands {
            self.is_lost.set(true);
        }
        !self.is_lost.get()
    }

    /// Is true where the path stands for the database file that was open, and the files were never
    /// lost. It is for after they were closed, which cuts their log.
    pub fn has_stood(&self) -> bool {
        let db = self.db();
        let is_same = match self.held.try_borrow() {
            Ok(held) => match held.as_ref() {
                Some(held) => db == Some(held.db),
                None => false,
            },
            Err(_) => false,
        };
        if !is_same {
            self.is_lost.set(true);
        }
        !self.is_lost.get()
    }

    /// Is true where a call before noticed that the path does not stand for the files.
    pub fn is_lost(&self) -> bool {
        self.is_lost.get()
    }
}

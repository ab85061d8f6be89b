//! The path of a store, before it is opened.

ghost use Rattle.std.specs.Prelude.{◌↔◌, IsTrue};

use edf_os::Terminal;
use std::fs;
use std::io::{self, ErrorKind, Read};

/// The first bytes of each SQLite database.
const MAGIC: [u8; 16] = *b"SQLite format 3\0";

/// It is printed of a file that is no database.
pub(crate) const NO_DATABASE: &str = "not a database, or none that can be read here";

/// A kind of what there is at a path.
#[derive(Clone, Copy, PartialEq, Eq)]
pub(crate) enum AtPath {
    /// Something, or the system does not say: its opening shows it.
    Something,
    /// Nothing, in a folder that is there: a new store may be made.
    Nothing,
    /// A file of 0 bytes, and no log that has bytes: a new store may be made in it.
    EmptyFile,
    /// A file that is no database, and no log that has bytes.
    NoDatabase,
    /// No file, since the path is empty or ends with a slash.
    NoName,
    /// A link to a file that is not there.
    DeadLink,
    /// Nothing, since the folder is not there.
    NoFolder,
}

impl AtPath {
    ghost use Rattle.edfstore_open.specs.AtPath.{HasNoStore};

    /// Prints for a person that a store was made, where there was none.
    pub(crate) fn print_made(self, terminal: &Terminal<'_>, path: &str) {
        let made = match self {
            AtPath::Nothing => "no such file; made a new, empty store",
            AtPath::EmptyFile => "an empty file; made a new, empty store in it",
            _ => return,
        };
        terminal.advise(path, made);
    }

    /// Is true where there is no store, and one may be made. A command that only reads makes none.
    pub(crate) fn has_no_store(self) -> bool
        ensures { IsTrue result ↔ HasNoStore self }
    {
        matches!(self, AtPath::Nothing | AtPath::EmptyFile)
    }
}

/// Is true where SQLite reads the path as more than a file's name, and refuses it.
pub(crate) fn is_address(path: &str) -> bool {
    path.starts_with("file:")
}

/// Is true where the system says that there is nothing.
fn is_nothing<T: Drop>(found: io::Result<T>) -> bool {
    match found {
        Ok(_) => false,
        Err(error) => error.kind() == ErrorKind::NotFound,
    }
}

/// Returns the folder of a path that does not end with a slash.
fn folder_of(path: &str) -> &str {
    match path.rsplit_once('/') {
        Some(("", _)) => "/",
        Some((folder, _)) => folder,
        None => ".",
    }
}

/// Is true where the log of the file at a path has bytes, or the system does not say.
fn has_log(rt: &HostRuntime, path: &str) -> bool {
    let Ok(real) = fs::canonicalize(rt, path) else {
        return true;
    };
    let Ok(log) = format!(in rt.alloc(); "{}-wal", real.as_str()) else {
        return true;
    };
    match fs::symlink_metadata(rt, log.as_str()) {
        Ok(found) => found.len() > 0,
        Err(error) => error.kind() != ErrorKind::NotFound,
    }
}

/// Returns what a plain file is by its first bytes. Its opening would make a log beside it, also
/// where it is no database.
fn look_into(rt: &HostRuntime, path: &str) -> AtPath {
    let Ok(mut file) = fs::open(rt, path) else {
        return AtPath::Something;
    };
    let mut head = [0; 16];
    match file.read_exact(&mut head) {
        Ok(()) if head[..] == MAGIC[..] => AtPath::Something,
        Err(error) if error.kind() != ErrorKind::UnexpectedEof => AtPath::Something,
        _ => AtPath::NoDatabase,
    }
}

/// Returns why a path has no file.
fn look_beside(rt: &HostRuntime, path: &str) -> AtPath {
    if path.is_empty() || path.ends_with('/') {
        AtPath::NoName
    } else if fs::symlink_metadata(rt, path).is_ok() {
        AtPath::DeadLink
    } else if is_nothing(fs::canonicalize(rt, folder_of(path))) {
        AtPath::NoFolder
    } else {
        AtPath::Nothing
    }
}

/// Returns what there is at a path. It makes nothing.
pub(crate) fn look_at(rt: &HostRuntime, path: &str) -> AtPath {
    if is_address(path) {
        return AtPath::Something;
    }
    match fs::metadata(rt, path) {
        Ok(found) if !found.is_file() || has_log(rt, path) => AtPath::Something,
        Ok(found) if found.len() == 0 => AtPath::EmptyFile,
        Ok(_) => look_into(rt, path),
        Err(error) if error.kind() == ErrorKind::NotFound => look_beside(rt, path),
        Err(_) => AtPath::Something,
    }
}

/// Returns why there is no store at a path and none is made, and what to do, for a person; `None`
/// where its opening shows it.
pub(crate) fn why_none(found: AtPath) -> Option<&'static str> {
    match found {
        AtPath::Something | AtPath::Nothing | AtPath::EmptyFile => None,
        AtPath::NoDatabase => Some(NO_DATABASE),
        AtPath::NoName => Some("a path that is empty, or ends with '/', names no file"),
        AtPath::DeadLink => Some(
            "a link to a file that is not there: mount its disk, or remove it",
        ),
        AtPath::NoFolder => Some("its folder is not there: mount its disk, or make it"),
    }
}

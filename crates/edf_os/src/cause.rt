//! Plain words for a person: why a file could not be read or written.

use crate::terminal::Terminal;
use std::fs;
use std::io::{self, ErrorKind};

/// It is printed where a disk is full.
pub const FULL: &str = "the disk is full";

/// It explains E40, where no read failed.
pub(crate) const CHANGED: &str = "it changed between the two readings: run this again once no \
    program writes it";

/// It says what to do where the name of a new file is taken.
pub(crate) const RENAME: &str = "no file is written over another: give another name, or move that \
    file away";

/// It says what to do where a split stopped after it made a file.
pub(crate) const STAYS: &str = "the files that were made stay: remove them, or give another prefix";

/// Returns what to do after a failed write to what has this name: a new file, of a program that
/// mends or of a split, or else a stream.
pub(crate) fn on_unwritten(terminal: &Terminal<'_>, name: &str) -> &'static str {
    if terminal.is_mending() || name.ends_with(".edf") {
        "remove the cause and run it again: no part of it is left, unless a line says so"
    } else {
        "remove the cause and run it again: what standard output got is not whole"
    }
}

/// Returns plain words for a system error; `None` means print the error itself.
fn system_words(error: &io::Error) -> Option<&'static str> {
    match error.kind() {
        ErrorKind::NotFound => Some("no such file or directory"),
        ErrorKind::NotADirectory => Some("a directory of its path is a file"),
        ErrorKind::PermissionDenied => Some(
            "no permission to read and write it, or files beside it",
        ),
        ErrorKind::ReadOnlyFilesystem => Some(
            "no permission to write: the file system is read-only",
        ),
        ErrorKind::StorageFull | ErrorKind::QuotaExceeded => Some(FULL),
        ErrorKind::AlreadyExists => Some("it is there already"),
        ErrorKind::BrokenPipe => Some("what reads it has ended"),
        ErrorKind::Unsupported | ErrorKind::IsADirectory => Some(
            "not a plain file, but a directory, a device or a file with a second hard link",
        ),
        _ => None,
    }
}

/// Prints why the system refused a file of this name.
pub fn print_system_error(terminal: &Terminal<'_>, path: &str, error: &io::Error) {
    match system_words(error) {
        Some(words) => terminal.say(path, words),
        None => terminal.say(path, error),
    }
}

/// Returns the same for a file that is only read.
fn reading_words(error: &io::Error) -> Option<&'static str> {
    match error.kind() {
        ErrorKind::PermissionDenied => Some("no permission to read it"),
        ErrorKind::IsADirectory => Some("a directory"),
        ErrorKind::Unsupported => Some("no regular file, but a pipe, a device or a socket"),
        _ => system_words(error),
    }
}

/// Prints why a file of this name, or standard input, could not be read.
pub(crate) fn print_unread(terminal: &Terminal<'_>, name: &str, error: &io::Error) {
    terminal.note_unread();
    match reading_words(error) {
        Some(words) => terminal.say(name, words),
        None => terminal.say(name, error),
    }
}

/// Prints why a file of this name, which is begun, could not be made. What is in its way explains
/// E43 too.
pub(crate) fn print_unmade(terminal: &Terminal<'_>, name: &str, error: &io::Error) {
    if error.kind() != ErrorKind::AlreadyExists {
        return print_system_error(terminal, name, error);
    }
    terminal.is_first(43);
    terminal.say(
        name,
        "it is there already, as a stopped run leaves it: once no program writes it, remove it and \
        run this again",
    );
}

/// Prints that a pipe is read a second time.
pub(crate) fn print_reread(terminal: &Terminal<'_>, name: &str) {
    terminal.note_unread();
    terminal.say(
        name,
        "a pipe can't be read a second time, unless it is written again: write it to a file first",
    );
}

/// Prints why standard output could not be written, under the name of its file, where it is one.
pub(crate) fn print_unwritten(rt: &HostRuntime, terminal: &Terminal<'_>, error: &io::Error) {
    if !terminal.prints_causes() {
        return;
    }
    match fs::read_link(rt, "/proc/self/fd/1") {
        Ok(path) if path.as_str().starts_with('/') => {
            print_system_error(terminal, path.as_str(), error);
        }
        _ => print_system_error(terminal, "standard output", error),
    }
}

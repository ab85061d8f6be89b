//! Files that are written under another name, synced, and then named.

ghost use Rattle.std.specs.Prelude.{◌≡◌, None, IfOk};

use crate::cause::{print_system_error, print_unmade};
use crate::terminal::Terminal;
use edf_fragment::{Output, saturating_increment};
use std::fs::{self, File};
use std::io::{self, ErrorKind, Write};
use std::path::Path;

/// A file did not get its name.
#[derive(Drop)]
pub(crate) struct Unnamed {
    pub(crate) error: io::Error,
    /// It is true where there is a file of that name which was made here and could not be removed.
    pub(crate) is_name_left: bool,
}

/// Makes files, and prints why that failed.
///
/// A file is written as `NAME.part`, which is made as a new file. Once it is whole it is synced and
/// gets its name by a hard link, so that no file that is there is ever written over, and nobody
/// sees a file of that name that is not whole. Then its folder is synced.
///
/// Where the file system has no links, an empty file of that name is made first, and the whole one
/// is renamed over it: nobody's file is written over there either, but after a crash between the
/// two there is the empty file.
#[derive(Drop)]
pub(crate) struct Parts<'rt> {
    rt: &'rt HostRuntime,
    terminal: &'rt Terminal<'rt>,
}

/// A file that is written, which prints why a write failed.
#[derive(Drop)]
pub struct NewFile<'rt> {
    terminal: &'rt Terminal<'rt>,
    name: String,
    part: String,
    file: File,
    /// The bytes that were written.
    pub(crate) bytes: u64,
    /// The writes that failed, up to `u64::MAX`.
    pub(crate) failures: u64,
}

impl Output for NewFile<'_> {
    ghost contents = { λ _. None };

    ghost failures = { λ file. file.failures };

    fn write(&mut self, buf: &[u8]) -> io::Result<usize> {
        match self.file.write(buf) {
            Ok(count) => {
                if count == 0 && !buf.is_empty() {
                    self.failures = saturating_increment(self.failures);
                }
                self.bytes = self.bytes.saturating_add(count as u64);
                Ok(count)
            }
            Err(error) => {
                self.failures = saturating_increment(self.failures);
                print_system_error(self.terminal, self.part.as_str(), &error);
                Err(error)
            }
        }
    }
}

/// Removes a file, if it is there.
fn remove(rt: &HostRuntime, name: &str) -> io::Result<()> {
    match fs::remove_file(rt, name) {
        Err(error) if error.kind() == ErrorKind::NotFound => Ok(()),
        answer => answer,
    }
}

/// Returns the fault of a file that never had its name.
fn never_named(error: io::Error) -> Unnamed {
    Unnamed {
        error,
        is_name_left: false,
    }
}

/// Is true where it is no failure that a folder can't be synced: it may not be read, or its file
/// system has no call for that.
fn may_stay_unsynced(error: &io::Error) -> bool {
    matches!(
        error.kind(),
        ErrorKind::PermissionDenied | ErrorKind::InvalidInput | ErrorKind::Unsupported
    )
}

/// Waits until the names of a file's folder are on the disk, where its file system can do that.
fn sync_folder(rt: &HostRuntime, name: &str) -> io::Result<()> {
    let folder = match Path::new(name).parent() {
        Some(folder) if !folder.as_str().is_empty() => folder.as_str(),
        _ => ".",
    };
    let synced = match File::open(rt, folder) {
        Ok(folder) => folder.sync_all(),
        Err(error) => Err(error),
    };
    match synced {
        Err(error) if may_stay_unsynced(&error) => Ok(()),
        answer => answer,
    }
}

impl<'rt> Parts<'rt> {
    pub(crate) fn new(rt: &'rt HostRuntime, terminal: &'rt Terminal<'rt>) -> Parts<'rt> {
        Parts { rt, terminal }
    }

    /// Is true where there is something of that name, if only a link that leads nowhere. Where that
    /// is not known, `create` or `finish` finds it out.
    pub(crate) fn is_there(&self, name: &str) -> bool {
        fs::symlink_metadata(self.rt, name).is_ok()
    }

    /// Begins a new file: makes its part.
    ///
    /// # Errors
    /// Where there is something of either name, or the file could not be made. What was there is as
    /// it was.
    pub(crate) fn create(&self, name: String, part: String) -> io::Result<NewFile<'rt>>
        ensures unfailed { IfOk result (λ file. file.failures ≡ 0) }
    {
        let file = self.open_part(name.as_str(), part.as_str())?;
        Ok(NewFile {
            terminal: self.terminal,
            name,
            part,
            file,
            bytes: 0,
            failures: 0,
        })
    }

    /// Opens the new file that is to get that name, where there is none of it. Prints why not.
    fn open_part(&self, name: &str, part: &str) -> io::Result<File> {
        if self.is_there(name) {
            let error = io::Error::from(ErrorKind::AlreadyExists);
            print_system_error(self.terminal, name, &error);
            return Err(error);
        }
        match File::create_new(self.rt, part) {
            Ok(file) => Ok(file),
            Err(error) => {
                print_unmade(self.terminal, part, &error);
                Err(error)
            }
        }
    }

    /// Removes the file of that name, which was made here and could not be finished for this error.
    fn unname(&self, name: &str, error: io::Error) -> Unnamed {
        let is_name_left = remove(self.rt, name).is_err() && self.is_there(name);
        Unnamed {
            error,
            is_name_left,
        }
    }

    /// Gives a file its name, unless something has it: by an empty file of that name, which is made
    /// new, and over which it is renamed.
    fn replace_empty(&self, part: &str, name: &str) -> Result<(), Unnamed> {
        drop(File::create_new(self.rt, name).map_err(never_named)?);
        match fs::rename(self.rt, part, name) {
            Ok(()) => Ok(()),
            Err(error) => Err(self.unname(name, error)),
        }
    }

    /// Gives a file its name, unless something has it. Its other name may stay.
    fn put_name(&self, part: &str, name: &str) -> Result<(), Unnamed> {
        match fs::hard_link(self.rt, part, name) {
            Ok(()) => Ok(()),
            Err(error) if error.kind() == ErrorKind::AlreadyExists => Err(never_named(error)),
            Err(_) => self.replace_empty(part, name),
        }
    }

    /// Takes its other name from a named file, and waits until that is on the disk.
    fn settle(&self, part: &str, name: &str) -> io::Result<()> {
        remove(self.rt, part)?;
        sync_folder(self.rt, name)
    }

    /// Names a synced file. After an error there is no file of that name that was made here, unless
    /// the error says that it is left.
    fn put_and_settle(&self, part: &str, name: &str) -> Result<(), Unnamed> {
        self.put_name(part, name)?;
        match self.settle(part, name) {
            Ok(()) => Ok(()),
            Err(error) => Err(self.unname(name, error)),
        }
    }

    /// Ends a file, all of which was written: it is synced, and gets its name. Prints why not.
    ///
    /// # Errors
    /// `AlreadyExists` where there is something of that name, which is as it was; another where it
    /// could not be synced or named, or not all was written. What remains of it is its part, and
    /// its name where that is left.
    pub(crate) fn finish(&self, file: NewFile<'rt>) -> Result<(), Unnamed>
        ensures { IfOk result (λ _. file.entry.failures ≡ 0) }
    {
        if file.failures > 0 {
            return Err(never_named(io::Error::from(ErrorKind::Other)));
        }
        let NewFile {
            terminal,
            name,
            part,
            file,
            bytes: _,
            failures: _,
        } = file;
        let synced = file.sync_all();
        drop(file);
        let ended = match synced {
            Ok(()) => self.put_and_settle(part.as_str(), name.as_str()),
            Err(error) => Err(never_named(error)),
        };
        match &ended {
            Ok(()) => terminal.note_file_made(),
            Err(unnamed) => print_system_error(terminal, name.as_str(), &unnamed.error),
        }
        ended
    }

    /// Removes a file, if it is there, and is true where it is gone. Prints why it is not.
    pub(crate) fn is_removed(&self, name: &str) -> bool {
        match remove(self.rt, name) {
            Ok(()) => true,
            Err(error) => {
                print_system_error(self.terminal, name, &error);
                false
            }
        }
    }
}

//! A second opening of the files of a store, which shows the cause where the first one failed.

use sqlite_std_file::OpenError;
use std::fs::{self, OpenOptions};
use std::io::{self, ErrorKind, Read};
use std::os::unix::fs::MetadataExt;

/// Opens a plain file as the opening of a store does, and makes none.
fn open_there(rt: &HostRuntime, path: &str) -> io::Result<()> {
    let found = fs::symlink_metadata(rt, path)?;
    if !found.is_file() || found.nlink() != 1 {
        return Err(io::Error::from(ErrorKind::Unsupported));
    }
    let _file = OpenOptions::new().read(true).write(true).open(rt, path)?;
    Ok(())
}

/// Is true where SQLite left a rollback journal, or something else has its name.
fn has_journal(rt: &HostRuntime, path: &str) -> io::Result<bool> {
    match fs::symlink_metadata(rt, path) {
        Ok(found) if found.is_file() => {
            let mut journal = fs::open(rt, path)?;
            let mut first = [0];
            Ok(journal.read(&mut first)? == 1 && first[0] != 0)
        }
        Ok(_) => Ok(true),
        Err(error) if error.kind() == ErrorKind::NotFound => Ok(false),
        Err(error) => Err(error),
    }
}

/// Opens what there is of a store's files, in the order of its opening. It makes none, and takes no
/// lock.
///
/// # Errors
/// Why one can't be opened. `NotFound` is of one that is not there, which the opening makes.
pub(crate) fn open_again(rt: &HostRuntime, path: &str) -> Result<(), OpenError> {
    let mut real = fs::canonicalize(rt, path)?;
    open_there(rt, real.as_str())?;
    let journal = format!(in rt.alloc(); "{}-journal", real.as_str())?;
    if has_journal(rt, journal.as_str())? {
        return Err(OpenError::HotJournal);
    }
    let log = format!(in rt.alloc(); "{}-wal", real.as_str())?;
    open_there(rt, log.as_str())?;
    real.pop();
    let _folder = fs::open(rt, real.as_str())?;
    Ok(())
}

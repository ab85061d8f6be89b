//! The end of a command.

ghost use Rattle.std.specs.Prelude.{◌≡◌};
ghost use Rattle.edfstore_open.specs.Ended.{status_of};

use edf_command::Status;
use edfstore_files::EndedRun;
use sqlite::Leftover;
use sqlite_disk::Disk;

/// The end of a command, with the files of its store, where these were returned.
pub(crate) enum Ended<D: Disk> {
    /// It was run over the files of its store.
    Run(EndedRun<D>),
    /// They were not opened; with the status comes what remains of them.
    NotOpened(Status, Option<Leftover<D>>),
    /// It has no files: there are none at its path, and it only reads, or it names no path.
    WithoutFiles(Status),
}

impl<D: Disk> Ended<D> {
    pub(crate) fn status(&self) -> Status
        ensures { result ≡ status_of self.now }
    {
        match self {
            Ended::Run(session) => session.status,
            Ended::NotOpened(status, _) => *status,
            Ended::WithoutFiles(status) => *status,
        }
    }
}

impl<D: Disk + Drop> Drop for Ended<D> {
    fn drop(self) {
        match self {
            Ended::Run(_session) => {}
            Ended::NotOpened(_status, _left) => {}
            Ended::WithoutFiles(_status) => {}
        }
    }
}

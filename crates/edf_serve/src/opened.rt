//! A session over the files of a store, once they were opened.

ghost use Rattle.std.specs.Prelude.{◌≡◌, ◌≢◌, ◌⊎◌, Err, None, IfOk, IfErr, option_map};
ghost use Rattle.sqlite_wal.specs.Files.{outcomes, image_at};
ghost use Rattle.sqlite.specs.Files.{image_of};
ghost use Rattle.sqlite.specs.declared.error.Error.{Error};
ghost use Rattle.edf_cli.specs.Output.{output_change};
ghost use Rattle.edf_cli.specs.declared.status.Status.TheVariants.{Trouble};
ghost use Rattle.edfstore_files.specs.Close.{IsRunDone, IsRefused};
ghost use Rattle.edfstore_files.specs.ProgramRun.{IsNoticed, IsOpening, NotOpened};
ghost use Rattle.edf_serve.specs.SessionRun.{session_run};
ghost use Rattle.edf_serve.specs.Work.{point};

use crate::client::Client;
use crate::files::Sources;
use crate::lines::Lines;
use crate::over::serve_over;
use crate::room::Room;
use crate::standing::StoreFiles;
use edf_cli::Status;
use edf_fragment::{Input, Output};
use edf_store::StoreFault;
use edfstore_files::{Cap, EndedRun, Watch, refuse};
use sqlite::{Connection, Error, FileFrom, FileStore, Leftover, Start};
use sqlite_disk::Disk;
use std::alloc::Global;

/// A session over the files of a store, which were opened for it, or were not: lines are answered
/// over their store, and they are closed. It has no other way to the files. It is told in the words
/// that a run of `edfstore` is told in, so that what many runs and sessions leave is one law
/// (`edfstore_files::laws`).
///
/// `start` stands for what the files hold at the start, whatever that is. Where the disk gives
/// back what was written (`ran`):
/// - the files held no database, or one that some submissions leave, the store held just that, and
///   the lines were answered over it; or the store was refused for a cause, or with E45, where no
///   submissions leave what the files held, and no line was read;
/// - after any runs and sessions, of which each began with what the one before left as it ended or
///   crashed, it held what all of them submitted, in their order, of which the headline speaks;
/// - where the files were closed they then hold, also after a crash and without the log, what the
///   store held in the end: the files of all `take` lines were submitted as one list, answered as
///   the client was told, and it is what they leave. Where a failure of the disk had shut the store
///   they hold what some first of those files leave; where it was refused, the rows that they had;
/// - where they could not be closed, an opening after a crash finds no rows but such as some first
///   of those files leave. That it finds a store at all is not said there.
///
/// Its status is the worst of its lines', and trouble where the session was stopped, or its files
/// could not be closed, of which a line says why: under every other status what is held is in the
/// database file (`closed`). What they are read as in the end is among what a crash may leave, so
/// that the above speaks of it (`now`).
///
/// # Errors
/// The status, where the files were not opened: a line says why, and `watch` is told. What is left
/// of them is given back as it came (`unopened`).
pub fn serve_opened<S: Start, R: Input, I: Sources, C: Client, K: StoreFiles, F: Output, W: Watch>(
    alloc: Global,
    opened: Result<Connection<FileStore<FileFrom<S>>>, (Error, Option<Leftover<FileFrom<S>>>)>,
    cap: Cap,
    folder: Option<&str>,
    lines: &mut Lines<R>,
    room: &mut Room<I, C, K>,
    err: &mut F,
    watch: &mut W,
) -> Result<EndedRun<FileFrom<S>>, (Status, Option<Leftover<FileFrom<S>>>)>
    requires { IsOpening (image_at S.Start) opened }
    ensures ran { let r = session_run ⟦<FileFrom<S> as Disk>⟧ cap (image_at S.Start)
        (option_map (λ f. f.now) folder.entry)
        (λ store. record {
          at = point I.Sources C.Client K.StoreFiles store room.old;
          coming = lines.old;
        })
        (λ store. record {
          at = point I.Sources C.Client K.StoreFiles store room.new;
          coming = lines.new;
        }) (output_change F.Output err.old err.new)
        (IsNoticed (W.noticed watch.old) (W.noticed watch.new))
        ((room.new ≡ room.old) × (lines.new ≡ lines.old)) in
        IfOk result (λ s. IsRunDone r s ⊎ IsRefused r s) }
    ensures closed { IfOk result (λ s. s.status ≢ Trouble → s.failure ≡ None) }
    ensures now { IfOk result (λ s. outcomes ⟦<FileFrom<S> as Disk>⟧ s.files.log s.files.db
        (image_of ⟦<FileFrom<S> as Disk>⟧ s.files)) }
    ensures unopened { let r = session_run ⟦<FileFrom<S> as Disk>⟧ cap (image_at S.Start)
        (option_map (λ f. f.now) folder.entry)
        (λ store. record {
          at = point I.Sources C.Client K.StoreFiles store room.old;
          coming = lines.old;
        })
        (λ store. record {
          at = point I.Sources C.Client K.StoreFiles store room.new;
          coming = lines.new;
        }) (output_change F.Output err.old err.new)
        (IsNoticed (W.noticed watch.old) (W.noticed watch.new))
        ((room.new ≡ room.old) × (lines.new ≡ lines.old)) in
        IfErr result (λ e. (error : Error) × (opened ≡ Err (error, e.1)) × NotOpened r error e.0) }
{
    match opened {
        Ok(conn) => Ok(serve_over::<FileFrom<S>, R, I, C, K, F, W>(
            alloc, conn, cap, folder, lines, room, err, watch,
        )),
        Err((error, left)) => Err((refuse(&StoreFault::from(error), false, err, watch), left)),
    }
}

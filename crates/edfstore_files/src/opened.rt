//! A run over the files of a store that were opened for it.

ghost use Rattle.std.specs.Prelude.{◌≡◌, ◌≢◌, ◌⊎◌, Ok, Err, None, IfOk, IfErr, false};
ghost use Rattle.sqlite_wal.specs.Files.{outcomes, image_at};
ghost use Rattle.sqlite_wal.specs.Recovery.{Image};
ghost use Rattle.sqlite.specs.Files.{file_state, image_of};
ghost use Rattle.sqlite.specs.declared.error.Error.{Error};
ghost use Rattle.edf_command.specs.Arguments.{meaning};
ghost use Rattle.edf_cli.specs.Output.{output_change};
ghost use Rattle.edf_cli.specs.declared.status.Status.TheVariants.{Trouble};
ghost use Rattle.edfstore_files.specs.ProgramRun.{IsNoticed, IsOpening, NotOpened, run_of};
ghost use Rattle.edfstore_files.specs.Close.{IsRunDone, IsRefused};

use crate::cap::Cap;
use crate::session::{EndedRun, close, leave};
use crate::watch::{Outputs, Watch, refuse};
use edf_command::{Inputs, Order, Status, run};
use edf_fragment::Output;
use edf_store::{Store, StoreFault};
use edf_tables::is_ours;
use sqlite::{Connection, Error, FileFrom, FileStore, Leftover, Start};
use sqlite_disk::Disk;
use std::alloc::Global;

/// Opens the store of a connection, runs a command over it, and closes its files. Those of a
/// refused store are released as they are: another program's file is not written.
fn run_over<D: Disk + Drop, I: Inputs, O: Output, F: Output, W: Watch>(
    alloc: Global,
    conn: Connection<FileStore<D>>,
    cap: Cap,
    command: &Order,
    inputs: &mut I,
    outputs: &mut Outputs<O, F, W>,
) -> EndedRun<D>
    requires idle { (file_state conn).in_transaction ≡ false }
    ensures ran { (start : Image) → IsOpening {g = D.Disk} start (Ok conn) →
        let r = run_of D.Disk cap start (
          meaning command.now,
          I.bytes inputs.old,
          I.opened inputs.old,
          I.opened inputs.new,
          output_change O.Output outputs.old.out outputs.new.out,
        ) (output_change F.Output outputs.old.err outputs.new.err)
        (IsNoticed (W.noticed outputs.old.watch) (W.noticed outputs.new.watch))
        (inputs.new ≡ inputs.old) in IsRunDone r result ⊎ IsRefused r result }
    ensures closed { result.status ≢ Trouble → result.failure ≡ None }
{
    let Outputs { out, err, watch } = outputs;
    let has_our_tables = is_ours(conn.schema());
    match Store::open_or_return(alloc, conn, cap.records()) {
        Ok(mut store) => {
            watch.opened(out);
            let status = run(alloc, command, &mut store, inputs, out, err);
            let back = store.into_connection();
            close(back, status, err)
        }
        Err((fault, back)) => leave(back, refuse(&fault, has_our_tables, err, watch)),
    }
}

/// Runs a command over the store of files that were opened for it, and closes them. It has no other
/// way to the files. `S` stands for the bytes that they hold at the start, whatever those are.
///
/// Where the disk returns what was written (`ran`):
/// - The files held no database, or the result of some submissions. Then the store held just that,
///   and the command was run over it. Or the store was refused, for a cause, or with E45 where the
///   files held what is not the result of any submissions.
/// - After any runs and sessions that follow one another it held the result of all that they
///   submitted, in order, of which the headline is true.
/// - Once closed, the files hold what the store held in the end, also after a crash and without the
///   log: all named files were submitted in turn, answered as is printed, and it is their result.
///   Files of a refused store have the rows that they had.
/// - Where they could not be closed, an opening after a crash reads only rows that are the result
///   of a prefix of the named files. No clause says that it finds a store at all.
///
/// Files that could not be closed are trouble, and a line says so: under every other status the
/// database file has what is held (`closed`). How they are read in the end is one of the outcomes
/// of a crash, of which the above speaks (`now`).
///
/// # Errors
/// The status, where the files were not opened. A line says why, and the watch is notified. What
/// remains of them is returned as it came (`unopened`).
pub fn run_opened<S: Start, I: Inputs, O: Output, F: Output, W: Watch>(
    alloc: Global,
    opened: Result<Connection<FileStore<FileFrom<S>>>, (Error, Option<Leftover<FileFrom<S>>>)>,
    cap: Cap,
    command: &Order,
    inputs: &mut I,
    outputs: &mut Outputs<O, F, W>,
) -> Result<EndedRun<FileFrom<S>>, (Status, Option<Leftover<FileFrom<S>>>)>
    requires { IsOpening (image_at S.Start) opened }
    ensures ran { let r = run_of ⟦<FileFrom<S> as Disk>⟧ cap (image_at S.Start) (
      meaning command.now,
      I.bytes inputs.old,
      I.opened inputs.old,
      I.opened inputs.new,
      output_change O.Output outputs.old.out outputs.new.out,
    ) (output_change F.Output outputs.old.err outputs.new.err)
        (IsNoticed (W.noticed outputs.old.watch) (W.noticed outputs.new.watch))
        (inputs.new ≡ inputs.old) in
        IfOk result (λ s. IsRunDone r s ⊎ IsRefused r s) }
    ensures closed { IfOk result (λ s. s.status ≢ Trouble → s.failure ≡ None) }
    ensures now { IfOk result (λ s. outcomes ⟦<FileFrom<S> as Disk>⟧ s.files.log s.files.db
        (image_of ⟦<FileFrom<S> as Disk>⟧ s.files)) }
    ensures unopened { let r = run_of ⟦<FileFrom<S> as Disk>⟧ cap (image_at S.Start) (
      meaning command.now,
      I.bytes inputs.old,
      I.opened inputs.old,
      I.opened inputs.new,
      output_change O.Output outputs.old.out outputs.new.out,
    ) (output_change F.Output outputs.old.err outputs.new.err)
        (IsNoticed (W.noticed outputs.old.watch) (W.noticed outputs.new.watch))
        (inputs.new ≡ inputs.old) in
        IfErr result (λ e. (error : Error) × (opened ≡ Err (error, e.1)) × NotOpened r error e.0) }
{
    match opened {
        Ok(conn) => Ok(run_over(alloc, conn, cap, command, inputs, outputs)),
        Err((error, rest)) => {
            let Outputs { out: _, err, watch } = outputs;
            Err((refuse(&StoreFault::from(error), false, err, watch), rest))
        }
    }
}

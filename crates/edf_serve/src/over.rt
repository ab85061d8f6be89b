//! A session over an open connection.

ghost use Rattle.std.specs.Prelude.{◌≡◌, ◌≢◌, ◌⊎◌, None, Ok, false, option_map};
ghost use Rattle.sqlite_wal.specs.Recovery.{Image};
ghost use Rattle.sqlite.specs.Files.{file_state};
ghost use Rattle.edf_cli.specs.Output.{output_change};
ghost use Rattle.edf_cli.specs.declared.status.Status.TheVariants.{Trouble};
ghost use Rattle.edfstore_files.specs.Close.{IsRunDone, IsRefused};
ghost use Rattle.edfstore_files.specs.ProgramRun.{IsNoticed, IsOpening};
ghost use Rattle.edf_serve.specs.SessionRun.{session_run};
ghost use Rattle.edf_serve.specs.Work.{point};

use crate::client::Client;
use crate::files::Sources;
use crate::lines::Lines;
use crate::room::Room;
use crate::session::serve;
use crate::standing::StoreFiles;
use edf_fragment::{Input, Output};
use edf_store::Store;
use edf_tables::is_ours;
use edfstore_files::{Cap, EndedRun, Watch, close, leave, refuse};
use sqlite::{Connection, FileStore};
use sqlite_disk::Disk;
use std::alloc::Global;

/// Opens the store of a connection, answers lines over it, and closes its files. Those of a store
/// that is refused are let go as they are: another program's file is not written.
pub(crate) fn serve_over<
    D: Disk + Drop,
    R: Input,
    I: Sources,
    C: Client,
    K: StoreFiles,
    F: Output,
    W: Watch,
>(
    alloc: Global,
    conn: Connection<FileStore<D>>,
    cap: Cap,
    folder: Option<&str>,
    lines: &mut Lines<R>,
    room: &mut Room<I, C, K>,
    err: &mut F,
    watch: &mut W,
) -> EndedRun<D>
    requires idle { (file_state conn).in_transaction ≡ false }
    ensures ran { (start : Image) → IsOpening {g = D.Disk} start (Ok conn) →
        let r = session_run D.Disk cap start (option_map (λ f. f.now) folder.entry)
        (λ store. record {
          at = point I.Sources C.Client K.StoreFiles store room.old;
          coming = lines.old;
        })
        (λ store. record {
          at = point I.Sources C.Client K.StoreFiles store room.new;
          coming = lines.new;
        }) (output_change F.Output err.old err.new)
        (IsNoticed (W.noticed watch.old) (W.noticed watch.new))
        ((room.new ≡ room.old) × (lines.new ≡ lines.old)) in IsRunDone r result
        ⊎ IsRefused r result }
    ensures closed { result.status ≢ Trouble → result.failure ≡ None }
{
    let has_our_tables = is_ours(conn.schema());
    match Store::open_or_return(alloc, conn, cap.records()) {
        Ok(mut store) => {
            watch.opened(err);
            serve(alloc, folder, lines, &mut store, room);
            let back = store.into_connection();
            close(back, room.worst, err)
        }
        Err((fault, back)) => leave(back, refuse(&fault, has_our_tables, err, watch)),
    }
}

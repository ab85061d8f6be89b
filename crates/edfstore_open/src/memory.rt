//! A command over an empty store in memory.

ghost use Rattle.std.specs.Prelude.{◌≡◌, None, IfOk, IfErr};
ghost use Rattle.edf_command.specs.Arguments.{meaning};
ghost use Rattle.edf_store.specs.Fault.{HasCause};
ghost use Rattle.edf_command.specs.Command.{store_path};
ghost use Rattle.edf_cli.specs.Output.{output_change};
ghost use Rattle.edfstore_open.specs.InMemory.{IsEmptyStore, IsRunInMemory};

use edf_command::{Inputs, Order, Status, refuse_store, run};
use edf_fragment::Output;
use edf_header::MOST_RECORDS;
use edf_store::{Store, StoreFault};
use sqlite::Connection;
use sqlite_trees::memory::MemStore;
use std::alloc::Global;

/// Opens an empty store in memory.
///
/// # Errors
/// `Memory` (E41), or `Store` (E42) with its cause.
pub(crate) fn open_memory(alloc: Global) -> Result<Store<MemStore>, StoreFault>
    ensures empty { IfOk result IsEmptyStore }
    ensures why { IfErr result HasCause }
{
    match Connection::open_in_memory(alloc) {
        Ok(conn) => Store::open(alloc, conn, MOST_RECORDS),
        Err(_) => Err(StoreFault::Memory),
    }
}

/// Runs a command that names no path over an empty store in memory; or prints why there is none.
pub(crate) fn run_in_memory<I: Inputs, O: Output, F: Output>(
    alloc: Global,
    command: &Order,
    inputs: &mut I,
    out: &mut O,
    err: &mut F,
) -> Status
    requires memory { store_path (meaning command.now) ≡ None }
    ensures { IsRunInMemory (
      meaning command.now,
      I.bytes inputs.old,
      I.opened inputs.old,
      I.opened inputs.new,
      output_change O.Output out.old out.new,
    ) (output_change F.Output err.old err.new) (inputs.new ≡ inputs.old) result }
{
    match open_memory(alloc) {
        Ok(mut store) => {
            let status = run(alloc, command, &mut store, inputs, out, err);
            drop(store.into_connection());
            status
        }
        Err(fault) => refuse_store(&fault, err),
    }
}

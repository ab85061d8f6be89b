//! The program around a command: its words, and lines for a store that can't be opened or closed.

ghost use Rattle.std.specs.Prelude.{◌≡◌, option_map};
ghost use Rattle.edf_command.specs.Arguments.{meaning};
ghost use Rattle.edf_command.specs.Command.{IsCommandRead, store_path};
ghost use Rattle.edf_command.specs.Lines.{store_refused_line, store_not_closed_line};
ghost use Rattle.edf_cli.specs.Output.{output_change, IsWritten};

use crate::command_line::parse;
use crate::order::Order;
use edf_cli::{Status, print_fault, print_parts, print_refused};
use edf_fragment::Output;
use edf_store::StoreFault;
use itoa::Buffer;
use std::alloc::Global;

/// Parses the words after the program's name to the command to run.
///
/// # Errors
/// The exit status, if there is no command to run. Then help was written to `out`; or to `err` why
/// the words ask for nothing, or that memory ran out.
pub fn read_command<O: Output, F: Output>(
    alloc: Global,
    words: &[String],
    out: &mut O,
    err: &mut F,
) -> Result<Order, Status>
    ensures { IsCommandRead (output_change O.Output out.old out.new)
        (output_change F.Output err.old err.new)
        words.now result }
{
    match parse(alloc, words) {
        Ok(command) => Ok(command),
        Err(fault) => Err(print_fault(&fault, out, err)),
    }
}

/// Returns the path of the store that a command names. There is none for `:memory:` and for
/// `Convert`, which has an empty store in memory.
pub fn store_path(command: &Order) -> Option<&str>
    ensures { option_map (λ path. path.now) result ≡ store_path (meaning command.now) }
{
    let store = match command {
        Order::Take { store, files: _ } => store,
        Order::List { store } => store,
        Order::Export { store, place: _ } => store,
        Order::Convert { file: _ } => return None,
    };
    if store.as_str() == ":memory:" {
        None
    } else {
        Some(store.as_str())
    }
}

/// Prints why the store of a command can't be opened. The command is not run. Printing takes no
/// memory.
pub fn refuse_store<F: Output>(fault: &StoreFault, err: &mut F) -> Status
    ensures { IsWritten
        (output_change F.Output err.old err.new)
        (store_refused_line fault.now) Status.Trouble result }
{
    print_refused(err, "store", fault.number(), fault.name(), Status::Trouble)
}

/// Prints why a store can't be closed: what is held is in its log, and not in the database file
/// alone. Printing takes no memory.
pub fn print_store_not_closed<F: Output>(fault: &StoreFault, err: &mut F) -> Status
    ensures { IsWritten (output_change F.Output err.old err.new) (store_not_closed_line fault.now)
        Status.Trouble result }
{
    let mut buffer = Buffer::new();
    let digits = buffer.format(fault.number());
    let parts = [
        b"store not closed E".as_slice(),
        digits.as_bytes(),
        b" ",
        fault.name().as_bytes(),
        b"\n",
    ];
    print_parts(err, &parts, Status::Trouble)
}

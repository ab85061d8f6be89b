//! The outputs of a run, of which a watch gets notices of how its opening went.

ghost use Rattle.std.specs.Prelude.{List, Option};
ghost use Rattle.edf_cli.specs.Output.{output_change, IsWritten};
ghost use Rattle.edf_cli.specs.declared.status.Status;
ghost use Rattle.edf_command.specs.Lines.{store_refused_line};
ghost use Rattle.edfstore_files.specs.ProgramRun.{Notice, was_opened, was_refused, IsNoticed};

use edf_command::{Status, refuse_store};
use edf_fragment::Output;
use edf_store::StoreFault;

/// A watch is notified once by a run of how the opening of its store went: before its command
/// writes to standard output, or after the line that says why it is not run. Contracts speak of its
/// notices, where these are known.
pub trait Watch {
    // Its notices, in order, where they are known.
    ghost noticed: { Self → Option (List Notice) };

    /// Notes that the store is open. The command, which writes to `out`, has written nothing.
    fn opened<O: Output>(&mut self, out: &O)
        ensures { IsNoticed (noticed self.old) (noticed self.new)
            (was_opened (O.contents out.now)) };

    /// Notes that the store was refused; a line says so. It has our tables where its file was
    /// opened and has no table, the first of a store's two, or both and perhaps others after them.
    fn refused(&mut self, fault: &StoreFault, has_our_tables: bool)
        ensures { IsNoticed (noticed self.old) (noticed self.new)
            (was_refused fault.now has_our_tables) };
}

/// The outputs of a run: standard output, standard error, and the watch of its opening.
#[derive(Drop)]
pub struct Outputs<O, F, W> {
    pub out: O,
    pub err: F,
    pub watch: W,
}

/// Prints that a store is refused, and notifies the watch.
pub fn refuse<F: Output, W: Watch>(
    fault: &StoreFault,
    has_our_tables: bool,
    err: &mut F,
    watch: &mut W,
) -> Status
    ensures said { IsWritten
        (output_change F.Output err.old err.new)
        (store_refused_line fault.now) Status.Trouble result }
    ensures noticed { IsNoticed (W.noticed watch.old) (W.noticed watch.new)
        (was_refused fault.now has_our_tables) }
{
    let status = refuse_store(fault, err);
    watch.refused(fault, has_our_tables);
    status
}

//! The run of a command.

ghost use Rattle.std.specs.Prelude.{◌≡◌, ℕ, List};
ghost use Rattle.edf_command.specs.Arguments.{meaning};
ghost use Rattle.edf_cli.specs.Output.{output_change};
ghost use Rattle.edf_command.specs.Run.{IsDone, files_of};
ghost use Rattle.edf_command.specs.Taking.{HasOpened};

use crate::converting::convert;
use crate::exporting::export_place;
use crate::listing::list;
use crate::order::Order;
use crate::taking::take;
use edf_cli::{Inputs, Status};
use edf_fragment::Output;
use edf_store::Store;
use sqlite::Alter;
use std::alloc::Global;

/// Runs a command over a store, which is the one that the command names; for `Convert` it is an
/// empty one.
///
/// Files and lists go to `out`, and why something is not done to `err`, but for the files of
/// `take`: their lines all go to `out`. `take` submits every file before it writes a line. A line
/// that can't be written, for a failed write or since memory ran out, is trouble, and no line
/// follows it; a part of a line goes out only where a write failed.
pub fn run<S: Alter, I: Inputs, O: Output, F: Output>(
    alloc: Global,
    command: &Order,
    store: &mut Store<S>,
    inputs: &mut I,
    out: &mut O,
    err: &mut F,
) -> Status
    ensures done { IsDone S.Store store.old store.new (output_change O.Output out.old out.new)
        (output_change F.Output err.old err.new) (I.bytes inputs.old) (meaning command.now) result }
    ensures opened { HasOpened
        (I.opened inputs.old) (I.opened inputs.new) (files_of (meaning command.now)) result }
    ensures cap { store.new.cap ≡ store.old.cap }
    ensures same { (name : List ℕ) → I.bytes inputs.new name ≡ I.bytes inputs.old name }
{
    match command {
        Order::Take { store: _, files } => {
            take(alloc, files.as_slice(), store, inputs, out, err)
        }
        Order::List { store: _ } => list(alloc, store, out, err),
        Order::Export { store: _, place } => export_place(alloc, *place, store, out, err),
        Order::Convert { file } => convert(alloc, file.as_str(), store, inputs, out, err),
    }
}

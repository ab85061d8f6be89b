//! A command over the store that it names.

ghost use Rattle.std.specs.Prelude.{◌≡◌, None, MatchOption};
ghost use Rattle.sqlite_wal.specs.Files.{image_at};
ghost use Rattle.edf_command.specs.Arguments.{meaning};
ghost use Rattle.edf_header.specs.declared.limits.TheConstants.{MOST_RECORDS};
ghost use Rattle.edf_cli.specs.Output.{output_change};
ghost use Rattle.edfstore_files.specs.ProgramRun.{IsNoticed, IsOpening, run_of};
ghost use Rattle.edfstore_open.specs.OnFile.{OnlyReads, FindsNothing, IsRunOn};
ghost use Rattle.edfstore_open.specs.Program.{IsProgramRun};

use crate::cause::Teller;
use crate::ended::Ended;
use crate::memory::run_in_memory;
use crate::opening::{Again, find};
use crate::path::AtPath;
use edf_command::{Inputs, Order, Status, print_no_recording, store_path};
use edf_fragment::Output;
use edfstore_files::{Cap, Outputs, Watch, run_opened};
use sqlite::{Connection, Error, FileFrom, FileStore, Leftover, Start};
use sqlite_disk::Disk;
use std::alloc::Global;

/// Answers a command that makes no store, where there is none, as over an empty one.
fn find_nothing<F: Output>(command: &Order, err: &mut F) -> Status
    requires reads { OnlyReads (meaning command.now) }
    ensures { FindsNothing (meaning command.now) (output_change F.Output err.old err.new) result }
{
    match command {
        Order::Export { store: _, place } => print_no_recording(err, *place),
        Order::Take { .. } | Order::List { .. } | Order::Convert { .. } => Status::Done,
    }
}

/// Runs a command over the files of its store, which were opened for it, or were not; or answers
/// one that only reads, for which there are none. It has no other way to the files.
fn run_on_file<S: Start, I: Inputs, O: Output, F: Output, W: Watch>(
    alloc: Global,
    opening: Option<
        Result<Connection<FileStore<FileFrom<S>>>, (Error, Option<Leftover<FileFrom<S>>>)>,
    >,
    command: &Order,
    inputs: &mut I,
    outputs: &mut Outputs<O, F, W>,
) -> Ended<FileFrom<S>>
    requires { MatchOption opening
        (OnlyReads (meaning command.now)) (IsOpening (image_at S.Start)) }
    ensures run { let r = run_of ⟦<FileFrom<S> as Disk>⟧ MOST_RECORDS (image_at S.Start) (
      meaning command.now,
      I.bytes inputs.old,
      I.opened inputs.old,
      I.opened inputs.new,
      output_change O.Output outputs.old.out outputs.new.out,
    ) (output_change F.Output outputs.old.err outputs.new.err)
        (IsNoticed (W.noticed outputs.old.watch) (W.noticed outputs.new.watch))
        (inputs.new ≡ inputs.old) in
        IsRunOn r (meaning command.now) opening result }
    ensures quiet { opening ≡ None → outputs.new.watch ≡ outputs.old.watch }
{
    let Some(opened) = opening else {
        return Ended::WithoutFiles(find_nothing(command, &mut outputs.err));
    };
    let cap = Cap::most();
    match run_opened(alloc, opened, cap, command, inputs, outputs) {
        Ok(session) => Ended::Run(session),
        Err((status, left)) => Ended::NotOpened(status, left),
    }
}

/// Runs a command over the store that it names: that of a file, or an empty one in memory. Where
/// there is no store at its path, `take` makes it, and the others find nothing and make none; for a
/// person it prints which of these it was, and why a store is refused. It waits two seconds at most
/// for a store that another program has.
///
/// `at` is what was seen at the path, and `start` stands for what the files hold, whatever that is.
/// No clause speaks of the path that is opened, or of what the system does with it: these lines are
/// to be read.
pub(crate) fn run_over_store<S: Start + Again, I: Inputs, O: Output, F: Output>(
    rt: &HostRuntime,
    at: AtPath,
    start: S,
    command: &Order,
    inputs: &mut I,
    outputs: &mut Outputs<O, F, Teller<'_>>,
) -> Ended<FileFrom<S>>
    ensures { IsProgramRun ⟦<FileFrom<S> as Disk>⟧ (image_at S.Start) at (
      meaning command.now,
      I.bytes inputs.old,
      I.opened inputs.old,
      I.opened inputs.new,
      output_change O.Output outputs.old.out outputs.new.out,
    ) (output_change F.Output outputs.old.err outputs.new.err) (inputs.new ≡ inputs.old) result }
{
    match store_path(command) {
        Some(path) => {
            let opening = find(rt, path, at, start, command);
            if opening.is_none() {
                outputs.watch.print_missing();
            }
            let ended = run_on_file(rt.alloc(), opening, command, inputs, outputs);
            outputs.watch.print_ended(rt, &ended);
            ended
        }
        None => {
            let Outputs { out, err, watch: _ } = outputs;
            Ended::WithoutFiles(run_in_memory(rt.alloc(), command, inputs, out, err))
        }
    }
}

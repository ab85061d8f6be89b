//! `take NAME`: a file, submitted.

ghost use Rattle.std.specs.Prelude.{◌≡◌, ◌⊎◌, ◌↔◌, ℕ, true, List, Option, Err, option_map};
ghost use Rattle.edf_command.specs.Lines.{refused_file_line, take_memory_line};
ghost use Rattle.edf_intake.specs.Refusal.{IsMemoryOrStoreRefusal, refusal_number};
ghost use Rattle.edf_cli.specs.Output.{output_change, IsWritten, IsLinePrinted};
ghost use Rattle.edf_cli.specs.Status.{status_of_number};
ghost use Rattle.edf_cli.specs.Text.{IsInstantFormat};
ghost use Rattle.edf_serve.specs.Taking.{SubmitsFile, IsTaken, outside_line};
ghost use Rattle.edf_serve.specs.Work.{OnlyWrites, Submission, Work, point};

use crate::client::Client;
use crate::files::Sources;
use crate::places::place_of;
use crate::room::{Outcome, Room};
use crate::standing::StoreFiles;
use edf_cli::{Status, print_memory, print_parts, print_text, status_of_number};
use edf_command::refused_file_line;
use edf_fragment::Output;
use edf_intake::{Refusal, submit};
use edf_store::Store;
use sqlite::Alter;
use std::alloc::Global;

/// Prints that a name does not lead below the folder. Printing takes no memory.
fn tell_outside<O: Output>(out: &mut O, name: &str) -> Status
    ensures { IsWritten (output_change O.Output out.old out.new)
        (outside_line name.now) Status.Refused
        result }
{
    let parts = [name.as_bytes(), b" is outside of the folder\n".as_slice()];
    print_parts(out, &parts, Status::Refused)
}

/// Writes the line of a refused file.
fn print_refusal<O: Output>(alloc: Global, name: &str, refusal: Refusal, out: &mut O) -> Status
    ensures { (spell : ℕ → List ℕ) → IsInstantFormat spell →
        IsLinePrinted (output_change O.Output out.old out.new)
        (refused_file_line spell name.now refusal)
        (status_of_number (refusal_number refusal)) result }
{
    let status = status_of_number(refusal.number());
    let line = refused_file_line(alloc, name, &refusal);
    print_text(out, line, status)
}

/// Whether memory ran out or the store refused, so that a transaction may be open.
fn is_stopped(refusal: &Refusal) -> bool
    ensures { (result ≡ true) ↔ IsMemoryOrStoreRefusal (Err refusal.now) }
{
    matches!(refusal, Refusal::Memory | Refusal::Store(_))
}

/// Submits the file of a path, and writes its line where it is refused.
fn submit_file<'l, S: Alter, I: Sources, C: Client, K: StoreFiles>(
    alloc: Global,
    name: &'l str,
    path: &str,
    store: &mut Store<S>,
    room: &mut Room<I, C, K>,
) -> Outcome<'l>
    ensures taken { (submission : Option Submission) × (let w : Work S = (record {
      old = point I.Sources C.Client K.StoreFiles store.old room.old;
      new = point I.Sources C.Client K.StoreFiles store.new room.new;
      submission = submission;
      outcome = result;
    }) in
        SubmitsFile S.Store w name.now path.now
        ⊎ OnlyWrites w (λ out status. IsWritten out take_memory_line Status.Trouble status)) }
    ensures cap { store.new.cap ≡ store.old.cap }
{
    match room.sources.open(alloc, path) {
        Ok(mut reader) => match submit(alloc, store, &mut reader) {
            Ok(receipt) => Outcome::Accepted { name, receipt },
            Err(refusal) => {
                let is_stopped = is_stopped(&refusal);
                let status = print_refusal(alloc, name, refusal, &mut room.out);
                Outcome::Told { status, is_stopped }
            }
        },
        Err(_) => Outcome::went(print_memory(&mut room.out, "take")),
    }
}

/// Submits the file of that name below the folder, where there is one, and writes its line where it
/// is refused.
pub(crate) fn take<'l, S: Alter, I: Sources, C: Client, K: StoreFiles>(
    alloc: Global,
    name: &'l str,
    folder: Option<&str>,
    store: &mut Store<S>,
    room: &mut Room<I, C, K>,
) -> Outcome<'l>
    ensures taken { (submission : Option Submission) × IsTaken S.Store
        (record {
          old = point I.Sources C.Client K.StoreFiles store.old room.old;
          new = point I.Sources C.Client K.StoreFiles store.new room.new;
          submission = submission;
          outcome = result;
        }) name.now (option_map (λ f. f.now) folder.entry) }
    ensures cap { store.new.cap ≡ store.old.cap }
{
    match place_of(alloc, folder, name, &room.sources) {
        Ok(Some(path)) => submit_file(alloc, name, path.as_str(), store, room),
        Ok(None) => Outcome::went(tell_outside(&mut room.out, name)),
        Err(_) => Outcome::went(print_memory(&mut room.out, "take")),
    }
}

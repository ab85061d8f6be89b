//! `convert`: one file to its canonical form.

ghost use Rattle.std.specs.Prelude.{◌≡◌, ◌∷◌, [], ℕ, List};
ghost use Rattle.edf_cli.specs.Output.{output_change};
ghost use Rattle.edf_command.specs.Run.{IsConverted};
ghost use Rattle.edf_command.specs.Taking.{HasOpened};

use crate::exporting::export_recording;
use crate::refusal::remark_of;
use crate::taking::refused_file_line;
use edf_cli::{Inputs, Status, print_memory, print_text, status_of_number};
use edf_fragment::Output;
use edf_intake::submit;
use edf_store::Store;
use sqlite::Alter;
use std::alloc::Global;

/// Takes one file into the store and writes the canonical file of its recording.
pub(crate) fn convert<S: Alter, I: Inputs, O: Output, F: Output>(
    alloc: Global,
    file: &str,
    store: &mut Store<S>,
    inputs: &mut I,
    out: &mut O,
    err: &mut F,
) -> Status
    ensures converted { IsConverted S.Store store.old store.new
        (output_change O.Output out.old out.new)
        (output_change F.Output err.old err.new) (I.bytes inputs.old file.now) file.now result }
    ensures opened { HasOpened (I.opened inputs.old) (I.opened inputs.new) (file.now ∷ []) result }
    ensures cap { store.new.cap ≡ store.old.cap }
    ensures same { (name : List ℕ) → I.bytes inputs.new name ≡ I.bytes inputs.old name }
{
    let Ok(mut reader) = inputs.open(alloc, file) else {
        return print_memory(err, file);
    };
    match submit(alloc, store, &mut reader) {
        Ok(receipt) => export_recording(alloc, store, &receipt.identity, out, err),
        Err(refusal) => {
            let status = status_of_number(refusal.number());
            let printed = print_text(err, refused_file_line(alloc, file, &refusal), status);
            err.remark(file, remark_of(&refusal));
            printed
        }
    }
}

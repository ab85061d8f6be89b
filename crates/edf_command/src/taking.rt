//! `take`: files into the store.

ghost use Rattle.std.specs.Prelude.{◌≡◌, ◌++◌, ℕ, List, IfOk, MatchResult, length, map};
ghost use Rattle.std.specs.Prelude.{string_bytes};
ghost use Rattle.edf_command.specs.Lines.{accepted_line, refused_file_line, take_line};
ghost use Rattle.edf_command.specs.Lines.{first_take_lines, answer_status, take_status};
ghost use Rattle.edf_command.specs.Taking.{IsTaken, HasOpened, OpensPrefix};
ghost use Rattle.edf_cli.specs.Output.{output_change, IsLineWritten, AreLinesWritten};
ghost use Rattle.edf_cli.specs.Text.{IsInstantFormat};

use crate::refusal::{refusal_text, remark_of};
use edf_cli::{Inputs, Status, concat, print_memory, put_line, status_of_number, worse};
use edf_fragment::Output;
use edf_intake::{Receipt, Refusal, submit_all};
use edf_store::Store;
use sqlite::Alter;
use std::alloc::{AllocError, Global};

/// Opens a reader for each file.
fn open_all<I: Inputs>(
    alloc: Global,
    inputs: &mut I,
    files: &[String],
) -> Result<Vec<I::Reader>, AllocError>
    ensures opened { IfOk result (λ readers. map (λ r. I.Reader.remaining r) readers.items
        ≡ map (λ file. I.bytes inputs.old (string_bytes file)) files.now) }
    ensures names { MatchResult result
        (λ _. I.opened inputs.new ≡ I.opened inputs.old ++ map string_bytes files.now)
        (λ _. OpensPrefix (I.opened inputs.old) (I.opened inputs.new)
        (map string_bytes files.now)) }
    ensures same { (name : List ℕ) → I.bytes inputs.new name ≡ I.bytes inputs.old name }
{
    let mut readers = Vec::new(alloc);
    for file in files {
        let reader = inputs.open(alloc, file.as_str())?;
        readers.push(reader)?;
    }
    Ok(readers)
}

/// Returns the line of a refused file.
pub fn refused_file_line(
    alloc: Global,
    name: &str,
    refusal: &Refusal,
) -> Result<Vec<u8>, AllocError>
    ensures { IfOk result (λ r. (spell : ℕ → List ℕ) → IsInstantFormat spell →
        r.items ≡ refused_file_line spell name.now refusal.now) }
{
    let text = refusal_text(alloc, refusal)?;
    concat(
        alloc,
        &[name.as_bytes(), b" refused ", text.as_slice(), b"\n"],
    )
}

/// Returns the line of an accepted file.
fn accepted_line(alloc: Global, name: &str, new: u32, known: u32) -> Result<Vec<u8>, AllocError>
    ensures { IfOk result (λ r. r.items ≡ accepted_line name.now new known) }
{
    let line = format!(in alloc; "{name} accepted new={new} known={known}\n")?;
    Ok(line.into_bytes())
}

/// Returns the line of a file, by its answer.
fn take_line(
    alloc: Global,
    name: &str,
    answer: &Result<Receipt, Refusal>,
) -> Result<Vec<u8>, AllocError>
    ensures { IfOk result (λ r. (spell : ℕ → List ℕ) → IsInstantFormat spell →
        r.items ≡ take_line spell name.now answer.now) }
{
    match answer {
        Ok(receipt) => {
            let line = accepted_line(alloc, name, receipt.new, receipt.known)?;
            Ok(line)
        }
        Err(refusal) => refused_file_line(alloc, name, refusal),
    }
}

/// Writes the line of a file, and gives a remark on a refusal for a person. Is true if the line was
/// written whole.
fn put_answer<O: Output>(
    alloc: Global,
    out: &mut O,
    name: &str,
    answer: &Result<Receipt, Refusal>,
) -> bool
    ensures { (spell : ℕ → List ℕ) → IsInstantFormat spell →
        IsLineWritten (output_change O.Output out.old out.new)
        (take_line spell name.now answer.now) result }
{
    if !put_line(out, take_line(alloc, name, answer)) {
        return false;
    }
    match answer {
        Ok(_) => true,
        Err(refusal) => {
            out.remark(name, remark_of(refusal));
            true
        }
    }
}

/// Writes one line for each file, in their order, until one is not written whole.
fn put_answers<O: Output>(
    alloc: Global,
    out: &mut O,
    files: &[String],
    answers: &[Result<Receipt, Refusal>],
) -> bool
    ensures { (spell : ℕ → List ℕ) → IsInstantFormat spell →
        AreLinesWritten (output_change O.Output out.old out.new)
        (first_take_lines spell (map string_bytes files.now) answers.now)
        (length answers.now) result }
{
    for (file, answer) in files.iter().zip(answers) {
        if !put_answer(alloc, out, file.as_str(), answer) {
            return false;
        }
    }
    true
}

fn answer_status(answer: &Result<Receipt, Refusal>) -> Status
    ensures { result ≡ answer_status answer.now }
{
    match answer {
        Ok(_) => Status::Done,
        Err(refusal) => status_of_number(refusal.number()),
    }
}

/// Returns the worst status of the answers.
fn take_status(answers: &[Result<Receipt, Refusal>]) -> Status
    ensures { result ≡ take_status answers.now }
{
    let mut status = Status::Done;
    for answer in answers {
        status = worse(status, answer_status(answer));
    }
    status
}

/// Submits each file in turn, also after refused ones, and writes one line for each.
pub(crate) fn take<S: Alter, I: Inputs, O: Output, F: Output>(
    alloc: Global,
    files: &[String],
    store: &mut Store<S>,
    inputs: &mut I,
    out: &mut O,
    err: &mut F,
) -> Status
    ensures taken { IsTaken S.Store store.old store.new (output_change O.Output out.old out.new)
        (output_change F.Output err.old err.new) (I.bytes inputs.old)
        (map string_bytes files.now) result }
    ensures opened { HasOpened
        (I.opened inputs.old) (I.opened inputs.new) (map string_bytes files.now) result }
    ensures cap { store.new.cap ≡ store.old.cap }
    ensures same { (name : List ℕ) → I.bytes inputs.new name ≡ I.bytes inputs.old name }
{
    let Ok(mut readers) = open_all(alloc, inputs, files) else {
        return print_memory(err, "take");
    };
    let Ok(answers) = submit_all(alloc, store, readers.as_mut_slice()) else {
        return print_memory(err, "take");
    };
    if put_answers(alloc, out, files, answers.as_slice()) {
        take_status(answers.as_slice())
    } else {
        Status::Trouble
    }
}

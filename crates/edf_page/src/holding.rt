//! Files into an empty store in memory, and what it lists and exports.

ghost use Rattle.std.specs.Prelude.{◌≡◌, ◌∷◌, [], ℕ, List, None, IfOk, map};
ghost use Rattle.edf_holdings.specs.Holdings.{Holdings, nothing_held};
ghost use Rattle.edf_holdings.specs.Keys.{AreKeysOf};
ghost use Rattle.edf_command.specs.Lines.{accepted_line, take_line};
ghost use Rattle.edf_cli.specs.Text.{IsInstantFormat};
ghost use Rattle.edf_export.specs.Headline.{IsOnlyCanonicalFile};
ghost use Rattle.edf_page.specs.Inside.{HasIn, HoldsStill, Submits, Takes, TakesGiven};
ghost use Rattle.edf_page.specs.Inside.{ListsHeld, ExportsHeld, stop_in};

use crate::given::GivenFile;
use crate::stopped::{Stopped, stop_of_export, stop_said};
use crate::text::Text;
use edf_command::{Status, list, refused_file_line};
use edf_export::export;
use edf_fragment::Counted;
use edf_header::{Identity, MOST_RECORDS};
use edf_intake::{Receipt, Refusal, submit};
use edf_store::{Store, StoreFault};
use sqlite::Connection;
use sqlite_trees::memory::MemStore;
use std::alloc::{AllocError, Global};

/// An empty store.
pub(crate) fn open_memory(alloc: Global) -> Result<Store<MemStore>, StoreFault>
    ensures { IfOk result (λ store. HasIn store nothing_held) }
{
    match Connection::open_in_memory(alloc) {
        Ok(conn) => Store::open(alloc, conn, MOST_RECORDS),
        Err(_) => Err(StoreFault::Memory),
    }
}

/// Why nothing is given, where an answer says nothing of its file.
fn stop_in(answer: &Result<Receipt, Refusal>) -> Option<Stopped>
    ensures { result ≡ stop_in answer.now }
{
    match answer {
        Ok(_) => None,
        Err(Refusal::Read | Refusal::Memory) => Some(Stopped::Memory),
        Err(Refusal::Store(fault)) => Some(Stopped::from(*fault)),
        Err(_) => None,
    }
}

/// An answer that says something of its file.
fn of_file(answer: Result<Receipt, Refusal>) -> Result<Result<Receipt, Refusal>, Stopped>
    ensures { IfOk result (λ same. (same ≡ answer) × (stop_in answer ≡ None)) }
{
    if let Some(stopped) = stop_in(&answer) {
        return Err(stopped);
    }
    Ok(answer)
}

/// Submits a file, and answers how it is accepted or refused.
fn submit_file(
    alloc: Global,
    bytes: &[u8],
    store: &mut Store<MemStore>,
) -> Result<Result<Receipt, Refusal>, Stopped>
    ensures { IfOk result (λ answer. Submits store.old store.new bytes.now answer) }
{
    let mut reader = Counted::new(bytes);
    of_file(submit(alloc, store, &mut reader))
}

/// The line of an accepted file.
fn accepted_line(alloc: Global, name: &str, receipt: &Receipt) -> Result<Vec<u8>, AllocError>
    ensures { IfOk result (λ line.
        line.items ≡ accepted_line name.now receipt.now.new receipt.now.known) }
{
    let (new, known) = (receipt.new, receipt.known);
    let line = format!(in alloc; "{name} accepted new={new} known={known}\n")?;
    Ok(line.into_bytes())
}

/// What became of a file, as a line.
fn line_of(
    alloc: Global,
    name: &str,
    answer: &Result<Receipt, Refusal>,
) -> Result<Vec<u8>, AllocError>
    ensures { IfOk result (λ line. (spell : ℕ → List ℕ) → IsInstantFormat spell →
        line.items ≡ take_line spell name.now answer.now) }
{
    match answer {
        Ok(receipt) => {
            let line = accepted_line(alloc, name, receipt)?;
            Ok(line)
        }
        Err(refusal) => refused_file_line(alloc, name, refusal),
    }
}

/// Takes a file, and answers its line.
fn take_file(
    alloc: Global,
    file: &GivenFile<'_>,
    store: &mut Store<MemStore>,
) -> Result<Vec<u8>, Stopped>
    ensures { IfOk result (λ line. Takes store.old store.new (line.items ∷ [])
        (file.now.name.now ∷ []) (file.now.bytes.now ∷ [])) }
{
    let answer = submit_file(alloc, file.bytes, store)?;
    let line = line_of(alloc, file.name, &answer)?;
    Ok(line)
}

/// Takes the files in turn, and answers a line for each.
pub(crate) fn take_files(
    alloc: Global,
    files: &[GivenFile<'_>],
    store: &mut Store<MemStore>,
) -> Result<Vec<Vec<u8>>, Stopped>
    ensures { IfOk result (λ lines. TakesGiven store.old store.new
        (map (λ line. line.items) lines.items) files.now) }
{
    let mut lines = Vec::new(alloc);
    for file in files {
        let line = take_file(alloc, file, store)?;
        if lines.push(line).is_err() {
            return Err(Stopped::Memory);
        }
    }
    Ok(lines)
}

/// The lines of `edfstore list`.
pub(crate) fn list_store(alloc: Global, store: &mut Store<MemStore>) -> Result<Vec<u8>, Stopped>
    ensures lists { IfOk result (λ lines. (h : Holdings) → HasIn store.old h →
        ListsHeld h lines.items) }
    ensures stays { HoldsStill store.old store.new }
{
    let mut out = Text::new(alloc);
    let mut err = Text::new(alloc);
    match list(alloc, store, &mut out, &mut err) {
        Status::Done => Ok(out.bytes),
        _ => Err(stop_said(err.bytes.as_slice())),
    }
}

/// A recording's canonical file.
fn export_one(
    alloc: Global,
    store: &mut Store<MemStore>,
    identity: &Identity,
) -> Result<Vec<u8>, Stopped>
    ensures exports { IfOk result (λ file. (h : Holdings) → HasIn store.old h →
        IsOnlyCanonicalFile file.items identity.now (h identity.now)) }
    ensures stays { HoldsStill store.old store.new }
{
    let mut out = Text::new(alloc);
    match export(alloc, store, identity, &mut out) {
        Ok(_len) => Ok(out.bytes),
        Err(fault) => Err(stop_of_export(fault)),
    }
}

/// The recordings of a store, in the order of their lines.
fn recordings_in(store: &mut Store<MemStore>) -> Result<Vec<Identity>, Stopped>
    ensures keys { IfOk result (λ all. (h : Holdings) → HasIn store.old h → AreKeysOf h all.items) }
    ensures stays { HoldsStill store.old store.new }
{
    match store.identities() {
        Ok(recordings) => Ok(recordings),
        Err(fault) => Err(Stopped::from(fault)),
    }
}

/// The canonical file of each recording, in the order of their lines.
pub(crate) fn export_each(
    alloc: Global,
    store: &mut Store<MemStore>,
) -> Result<Vec<Vec<u8>>, Stopped>
    ensures exports { IfOk result (λ files. (h : Holdings) → HasIn store.old h →
        ExportsHeld h (map (λ file. file.items) files.items)) }
    ensures stays { HoldsStill store.old store.new }
{
    let recordings = recordings_in(store)?;
    let mut files = Vec::new(alloc);
    for identity in recordings.as_slice() {
        let file = export_one(alloc, store, identity)?;
        if files.push(file).is_err() {
            return Err(Stopped::Memory);
        }
    }
    Ok(files)
}

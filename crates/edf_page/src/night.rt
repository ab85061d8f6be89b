//! What comes of files.

ghost use Rattle.std.specs.Prelude.{IfOk, map};
ghost use Rattle.std.specs.List.{AllZip};
ghost use Rattle.edf_holdings.specs.Holdings.{nothing_held};
ghost use Rattle.edf_page.specs.Night.{IsNight};
ghost use Rattle.edf_page.specs.Inside.{HasIn};
ghost use Rattle.edf_page.specs.InsideHeld.{IsHeldOf, IsOfFile};

use crate::given::GivenFile;
use crate::holding::{export_each, list_store, open_memory, take_files};
use crate::running::{draw, list_runs_of};
use crate::stopped::Stopped;
use edf_store::Store;
use sqlite_trees::memory::MemStore;
use std::alloc::Global;

/// What is given of a recording.
#[derive(Debug, Drop)]
pub struct Recording {
    /// Its EDF+D file.
    pub file: Vec<u8>,
    /// The lines of `edfruns list` of that.
    pub runs: Vec<u8>,
    /// The picture of it, as SVG.
    pub picture: Vec<u8>,
}

/// What comes of files.
#[derive(Debug, Drop)]
pub struct GivenNight {
    /// The line of `edfstore take` for each file, in their order.
    pub taken: Vec<Vec<u8>>,
    /// The lines of `edfstore list`.
    pub listed: Vec<u8>,
    /// The recordings, in the order of these.
    pub recordings: Vec<Recording>,
}

/// What a store in memory gives of files.
#[derive(Drop)]
struct Held {
    taken: Vec<Vec<u8>>,
    listed: Vec<u8>,
    files: Vec<Vec<u8>>,
}

/// Takes files into a store, and lists and exports what it then has.
fn hold(
    alloc: Global,
    files: &[GivenFile<'_>],
    store: &mut Store<MemStore>,
) -> Result<Held, Stopped>
    ensures { HasIn store.old nothing_held → IfOk result (λ held. IsHeldOf
        (map (λ file. file.name.now) files.now) (map (λ file. file.bytes.now) files.now) held) }
{
    let taken = take_files(alloc, files, store)?;
    let listed = list_store(alloc, store)?;
    let exported = export_each(alloc, store)?;
    Ok(Held {
        taken,
        listed,
        files: exported,
    })
}

/// The same of an empty store, of which nothing is left.
fn hold_in_memory(alloc: Global, files: &[GivenFile<'_>]) -> Result<Held, Stopped>
    ensures { IfOk result (λ held. IsHeldOf
        (map (λ file. file.name.now) files.now) (map (λ file. file.bytes.now) files.now) held) }
{
    match open_memory(alloc) {
        Ok(mut store) => {
            let held = hold(alloc, files, &mut store);
            drop(store.into_connection());
            held
        }
        Err(fault) => Err(Stopped::from(fault)),
    }
}

/// A recording, by its file.
fn recording_of(alloc: Global, file: Vec<u8>) -> Result<Recording, Stopped>
    ensures { IfOk result (IsOfFile file.items) }
{
    let bytes = file.as_slice();
    let runs = list_runs_of(alloc, bytes)?;
    let picture = draw(alloc, bytes)?;
    Ok(Recording {
        file,
        runs,
        picture,
    })
}

/// The recordings, by their files.
fn recordings_of(alloc: Global, files: Vec<Vec<u8>>) -> Result<Vec<Recording>, Stopped>
    ensures { IfOk result (λ all.
        AllZip (λ file r. IsOfFile file.items r) files.items all.items) }
{
    let mut recordings = Vec::new(alloc);
    for file in files {
        let recording = recording_of(alloc, file)?;
        if recordings.push(recording).is_err() {
            return Err(Stopped::Memory);
        }
    }
    Ok(recordings)
}

/// What comes of files that are taken in turn into an empty store.
///
/// # Errors
/// `Stopped` where memory ran out, or the store refused. Then nothing is given, of no file: also
/// not of those that would have been taken.
pub fn give_night(alloc: Global, files: &[GivenFile<'_>]) -> Result<GivenNight, Stopped>
    ensures { IfOk result (λ night. IsNight (map (λ file. file.name.now) files.now)
        (map (λ file. file.bytes.now) files.now) night) }
{
    let held = hold_in_memory(alloc, files)?;
    let Held {
        taken,
        listed,
        files: exported,
    } = held;
    let recordings = recordings_of(alloc, exported)?;
    Ok(GivenNight {
        taken,
        listed,
        recordings,
    })
}

//! The runs of an outline, which are listed without another reading.

ghost use Rattle.std.specs.Prelude.{ℕ, List, Option, IfOk};
ghost use Rattle.edf_field.specs.Number.{duration_of};
ghost use Rattle.edf_header.specs.Key.{Key};
ghost use Rattle.edf_fragment.specs.Fragment.{DataRecord};
ghost use Rattle.edf_runs.specs.Outline.{IsOutline, ReadsOutline};
ghost use Rattle.edf_runs.specs.Read.{ReadsRuns};
ghost use Rattle.edf_runs.specs.Runs.{AreListed};

use crate::adding::add_record;
use crate::outline::Outline;
use crate::run::Run;
use crate::spots::{Slot, Spots};
use edf_fragment::Record;
use edf_header::Identity;
use std::alloc::{AllocError, Global};

/// What a file holds: the recording that it belongs to, and its runs in time order.
#[derive(Drop)]
pub struct Listing {
    /// The identity of the recording.
    pub identity: Identity,
    /// The runs, one at least.
    pub runs: Vec<Run>,
}

/// Returns the runs of the data records of an outline.
///
/// # Errors
/// It fails where memory runs out.
fn runs_of(alloc: Global, outline: &Outline) -> Result<Vec<Run>, AllocError>
    ensures { IfOk result (λ runs. (k : Key) (records : List DataRecord) →
        IsOutline k records outline.now → AreListed (duration_of k.duration) records runs.items) }
{
    let duration = outline.identity.duration();
    let mut spots = Spots::of(outline);
    let mut runs = Vec::new(alloc);
    'spots: loop {
        let Some(slot) = spots.take(alloc)? else {
            return Ok(runs);
        };
        let Slot { start, notes } = slot;
        let Some(bare) = Record::new(start, Vec::new(alloc), notes) else {
            return Err(AllocError);
        };
        add_record(&mut runs, &bare, duration)?;
    }
}

/// Returns the listing of an outline, of which all but this is dropped.
///
/// # Errors
/// It fails where memory runs out.
pub fn list_outline(alloc: Global, outline: Outline) -> Result<Listing, AllocError>
    ensures { IfOk result (λ listing. (left rest : Option (List ℕ)) →
        ReadsOutline left rest outline → ReadsRuns left rest listing) }
{
    let runs = runs_of(alloc, &outline)?;
    let Outline { identity, spans: _ } = outline;
    Ok(Listing { identity, runs })
}

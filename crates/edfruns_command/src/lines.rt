//! The lines of runs.

ghost use Rattle.std.specs.Prelude.{◌≡◌, ◌≤◌, ℕ, List, IfOk, option_map, slice_get};
ghost use Rattle.edfruns_command.specs.Lines.{IsInstantFormat, end_of, gap_text, line_end};
ghost use Rattle.edfruns_command.specs.Lines.{run_front, run_lines};

use edf_cli::{concat, spelled};
use edf_field::MOST_DURATION;
use edf_header::Identity;
use edf_runs::{Listing, Run};
use edf_time::write_seconds;
use std::alloc::{AllocError, Global};

/// ` gap=S`: the seconds from the end of a run to the start of the next, if there is one.
fn gap_text(alloc: Global, end: u64, next: Option<&Run>) -> Result<Vec<u8>, AllocError>
    ensures { IfOk result (λ r. (d : ℕ) (run : Run) → end ≡ end_of d run →
        r.items ≡ gap_text d run (option_map (λ run. run.now) next.entry)) }
{
    let Some(next) = next else {
        return Ok(Vec::new(alloc));
    };
    let seconds = write_seconds(alloc, next.first().nanos().saturating_sub(end))?;
    concat(alloc, &[b" gap=".as_slice(), seconds.as_slice()])
}

/// How the line of a run begins: its number, how many data records it has, the start of the first,
/// the seconds from there to the end of the last, and the gap before the next run, if there is one.
pub(crate) fn line_front(
    alloc: Global,
    duration: u64,
    number: usize,
    run: &Run,
    next: Option<&Run>,
) -> Result<Vec<u8>, AllocError>
    requires { duration ≤ MOST_DURATION }
    ensures { IfOk result (λ r. (spell : ℕ → List ℕ) → IsInstantFormat spell → r.items
        ≡ run_front spell duration number run.now (option_map (λ run. run.now) next.entry)) }
{
    let end = run.last().nanos() + duration;
    let records = run.records();
    let counts = format!(in alloc; "{number} records={records} first=")?;
    let start = spelled(alloc, run.first())?;
    let seconds = write_seconds(alloc, end.saturating_sub(run.first().nanos()))?;
    let gap = gap_text(alloc, end, next)?;
    let parts = [
        counts.as_bytes(),
        start.as_slice(),
        b" seconds=",
        seconds.as_slice(),
        gap.as_slice(),
    ];
    concat(alloc, &parts)
}

/// How the line of a run ends: whose the file is, by its codes.
pub(crate) fn line_end(alloc: Global, identity: &Identity) -> Result<Vec<u8>, AllocError>
    ensures { IfOk result (λ r. r.items ≡ line_end identity.now) }
{
    let parts = [
        b" patient=".as_slice(),
        identity.patient_code(),
        b" investigation=",
        identity.investigation_code(),
        b"\n",
    ];
    concat(alloc, &parts)
}

/// The run at a place, from 0, if there is one.
pub(crate) fn run_at(runs: &[Run], at: usize) -> Option<&Run>
    ensures { option_map (λ run. run.now) result ≡ slice_get runs.now at }
{
    runs.get(at)
}

/// A line for each of a file's runs, in time order, each after the label.
pub(crate) fn list_text(
    alloc: Global,
    label: &[u8],
    listing: &Listing,
) -> Result<Vec<u8>, AllocError>
    ensures { IfOk result (λ r. (spell : ℕ → List ℕ) → IsInstantFormat spell →
        r.items ≡ run_lines spell listing.now.identity label.now 1 listing.now.runs.items) }
{
    let duration = listing.identity.duration();
    let end = line_end(alloc, &listing.identity)?;
    let runs = listing.runs.as_slice();
    let mut text = Vec::new(alloc);
    for at in 0..runs.len() {
        let front = line_front(alloc, duration, at + 1, &runs[at], run_at(runs, at + 1))?;
        text.extend_from_slice(label)?;
        text.extend_from_slice(front.as_slice())?;
        text.extend_from_slice(end.as_slice())?;
    }
    Ok(text)
}

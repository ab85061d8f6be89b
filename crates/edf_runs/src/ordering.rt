//! The order of annotations by onset.

ghost use Rattle.std.specs.Prelude.{◌≡◌, IfOk};
ghost use Rattle.edf_runs.specs.Order.{annotation_cmp, in_order};

use edf_tal::Note;
use std::alloc::AllocError;
use std::cmp::Ordering;

/// How two annotations compare: by onset, then by duration, none first, then by the bytes of the
/// text.
fn compare(one: &Note, other: &Note) -> Ordering
    ensures { result ≡ annotation_cmp one.now other.now }
{
    let onsets = one.onset().nanos().cmp(&other.onset().nanos());
    let durations = one.duration().cmp(&other.duration());
    let texts = one.text().as_bytes().cmp(other.text().as_bytes());
    onsets.then(durations.then(texts))
}

/// The same annotations in order.
pub(crate) fn in_order(mut notes: Vec<Note>) -> Result<Vec<Note>, AllocError>
    ensures { IfOk result (λ sorted. sorted.items ≡ in_order notes.items) }
{
    notes.sort_by(
        |one: &Note, other: &Note| -> Ordering
            ensures { result ≡ annotation_cmp one.now other.now }
        { compare(one, other) },
    )?;
    Ok(notes)
}

//! A walk over the data records of one recording has a cursor.

ghost use Rattle.std.specs.Prelude.{◌≡◌, ◌*◌, ◌/◌, ◌≤◌, min, max, [], negsuc};
ghost use Rattle.edf_header.specs.Signal.{samples_in_all};

use edf_header::Identity;
use edf_tables::RecordRow;
use std::alloc::Global;
use std::collections::VecDeque;

/// A page of more than one row has at most 256 KiB of ordinary samples.
const PAGE_BYTES: usize = 262_144;

/// A page has at most so many rows.
const PAGE_ROWS: usize = 64;

/// A cursor says how far a walk came, and has the rows that it read ahead.
#[derive(Drop)]
pub struct Cursor {
    /// The last data record that the walk yielded starts here; -1 before the first.
    pub(crate) start: i64,
    /// A page has at most so many rows.
    pub(crate) limit: u32,
    /// These rows were read ahead, in order: those of the data records that come next.
    pub(crate) rows: VecDeque<RecordRow>,
}

/// Returns the cursor of a walk that begins: it is before the first data record, and read no row.
pub(crate) fn cursor_at_first(alloc: Global, identity: &Identity) -> Cursor
    ensures start { result.start ≡ negsuc 0 }
    ensures limit { 1 ≤ result.limit }
    ensures rows { result.rows.items ≡ [] }
{
    Cursor {
        start: -1,
        limit: page_limit(identity),
        rows: VecDeque::new(alloc),
    }
}

/// Returns the most rows of a page: as many as have `PAGE_BYTES` of ordinary samples, but at least
/// one and at most `PAGE_ROWS`.
fn page_limit(identity: &Identity) -> u32
    ensures value { result ≡
        max 1 (min (PAGE_BYTES / max 1 (2 * samples_in_all identity.now.signals)) PAGE_ROWS) }
    ensures from { 1 ≤ result }
    ensures to { result ≤ PAGE_ROWS }
{
    let rows = PAGE_BYTES / identity.ordinary_bytes().max(1);
    rows.clamp(1, PAGE_ROWS) as u32
}

//! Rows are decoded to the data records that they represent.

ghost use Rattle.std.specs.Prelude.{◌≡◌, ◌≢◌, List, map, MatchResult};
ghost use Rattle.std.specs.List.{AllByRecursion};
ghost use Rattle.edf_header.specs.Key.{Key, IsKey};
ghost use Rattle.edf_fragment.specs.Fragment.{DataRecord};
ghost use Rattle.edf_fragment.specs.Sound.{IsSoundRecord};
ghost use Rattle.edf_tables.specs.Cells.{cells_of};
ghost use Rattle.edf_rows.specs.Cells.{record_cells};

use crate::fault::RowFault;
use edf_fragment::Record;
use edf_rows::record_from;
use edf_tables::RecordRow;
use std::alloc::Global;

/// Returns the data record that a row represents; fails by `Foreign` where it represents none.
pub(crate) fn record_in(alloc: Global, row: RecordRow) -> Result<Record, RowFault>
    ensures { (k : Key) (d : DataRecord) → IsKey k → IsSoundRecord k d →
        cells_of row ≡ record_cells d →
        MatchResult result (λ r. r ≡ d) (λ e. e ≢ RowFault.Foreign) }
{
    let RecordRow {
        start: _,
        samples,
        block,
    } = row;
    match record_from(alloc, samples, block.as_slice())? {
        Some(data_record) => Ok(data_record),
        None => Err(RowFault::Foreign),
    }
}

/// Returns the data records that rows represent, in their order; fails as `record_in`.
pub(crate) fn records_in(alloc: Global, rows: Vec<RecordRow>) -> Result<Vec<Record>, RowFault>
    ensures { (k : Key) (ds : List DataRecord) → IsKey k →
        AllByRecursion (IsSoundRecord k) ds → map cells_of rows.items ≡ map record_cells ds →
        MatchResult result (λ rs. rs.items ≡ ds) (λ e. e ≢ RowFault.Foreign) }
{
    let mut records = Vec::new(alloc);
    for row in rows {
        let data_record = record_in(alloc, row)?;
        records.push(data_record)?;
    }
    Ok(records)
}

//! Rows of SQL values are read as typed values.

ghost use Rattle.std.specs.Prelude.{◌≡◌, ◌⊎◌, [], pos, Some, IfOk, IfErr, map, slice_get};
ghost use Rattle.std.specs.Option.{option_map};
ghost use Rattle.sqlite.specs.declared.types.Value.TheVariants.{Int, Blob};
ghost use Rattle.sqlite_value.specs.Order.{column};
ghost use Rattle.sqlite.specs.Held.{state};
ghost use Rattle.sqlite.specs.Given.{IsPlain};
ghost use Rattle.sqlite.specs.Listing.{understood};
ghost use Rattle.sqlite.specs.State.{Shown};
ghost use Rattle.sqlite.specs.Values.{bound};
ghost use Rattle.edf_tables.specs.Cells.{cells_of, first_three};
ghost use Rattle.edf_tables.specs.Refused.{IsUnchangedOrRolledBack};
ghost use Rattle.edf_tables.specs.Statement.{IfClean, Gives, OnlyReads, KeepsCommitted};
ghost use Rattle.edf_tables.specs.Statement.{IsCrashSafe, ChangesOnErr};

use sqlite::types::ValueRef;
use sqlite::{Alter, Connection, Error, Row};
use std::alloc::Global;

/// A row of the table `record` has these typed values, beside its recording.
#[derive(Debug, PartialEq, Eq, Drop)]
pub struct RecordRow {
    /// Nanoseconds from 1985-01-01 00:00:00, by which the rows of a recording are in order.
    pub start: i64,
    /// The sample bytes of the data record.
    pub samples: Vec<u8>,
    /// The block that `edf_rows` writes for the data record's annotations.
    pub block: Vec<u8>,
}

/// A count of rows is at most this: SQLite's integers have a sign and 63 more bits.
pub const MOST_COUNTED: u64 = 9_223_372_036_854_775_807;

/// Reads a row whose first three columns are a start, samples and a block.
fn record_row(row: &Row) -> Result<RecordRow, Error>
    ensures value { IfOk result (λ r. cells_of r ≡ first_three row.now) }
{
    Ok(RecordRow {
        start: row.get(0)?,
        samples: row.get(1)?,
        block: row.get(2)?,
    })
}

/// Reads the bytes in the first column of each row.
pub(crate) fn identities_in(rows: Vec<Row>) -> Result<Vec<Vec<u8>>, Error>
    ensures value { IfOk result (λ values.
        map (λ b. Blob b.items) values.items ≡ map (λ row. column row 0) rows.items) }
{
    let mut found: Vec<Vec<u8>> = Vec::new(*rows.allocator());
    for row in &rows {
        found.push(row.get(0)?)?;
    }
    Ok(found)
}

/// Reads the number in the first column of the first row, if there is a row.
pub(crate) fn first_number(rows: Vec<Row>) -> Result<Option<i64>, Error>
    ensures value { IfOk result (λ value.
        option_map Int value ≡ option_map (λ row. column row 0) (slice_get rows.items 0)) }
{
    match rows.first() {
        Some(row) => Ok(Some(row.get(0)?)),
        None => Ok(None),
    }
}

/// Reads the count in the first column of the first row.
pub(crate) fn first_count(rows: Vec<Row>) -> Result<u64, Error>
    ensures value { IfOk result (λ count.
        option_map (λ row. column row 0) (slice_get rows.items 0) ≡ Some (Int (pos count))) }
{
    match rows.first() {
        Some(row) => row.get(0),
        None => Err(Error::QueryReturnedNoRows),
    }
}

/// Runs a query that changes nothing, and returns its rows.
pub(crate) fn rows_shown<S: Alter>(
    conn: &mut Connection<S>,
    sql: &str,
    params: &[ValueRef<'_>],
) -> Result<Vec<Row>, Error>
    requires { IfClean S.Store conn.old (λ s. IsPlain (understood s.now.schema sql.now)) }
    ensures shown { Gives S.Store conn.new result (λ rows.
        Shown sql.now (bound params.now) (state S.Store conn.old)
        (state S.Store conn.new) rows.items) }
    ensures same { OnlyReads S.Store conn.old conn.new result }
    ensures committed { KeepsCommitted S.Store conn.old conn.new }
    ensures refused { ChangesOnErr S.Store conn.old conn.new result IsUnchangedOrRolledBack }
    ensures survives { IsCrashSafe S.Store conn.old conn.new }
{
    conn.query_all(sql, params)
}

/// Runs a query that changes nothing, and reads each row while the connection lends it, so that its
/// bytes are copied once.
pub(crate) fn records_shown<S: Alter>(
    alloc: Global,
    conn: &mut Connection<S>,
    sql: &str,
    params: &[ValueRef<'_>],
) -> Result<Vec<RecordRow>, Error>
    requires { IfClean S.Store conn.old (λ s. IsPlain (understood s.now.schema sql.now)) }
    ensures shown { Gives S.Store conn.new result (λ records.
        (rows : _) × Shown sql.now (bound params.now) (state S.Store conn.old)
        (state S.Store conn.new) rows × (map cells_of records.items ≡ map first_three rows)) }
    ensures same { OnlyReads S.Store conn.old conn.new result }
    ensures committed { KeepsCommitted S.Store conn.old conn.new }
    ensures survives { IsCrashSafe S.Store conn.old conn.new }
{
    let mut found = Vec::new(alloc);
    let mut rows = conn.query(sql, params)?;
    'rows: loop {
        let Some(row) = rows.next()? else {
            return Ok(found);
        };
        found.push(record_row(row)?)?;
    }
}

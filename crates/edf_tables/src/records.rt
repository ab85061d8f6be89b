//! The records of one recording are read and counted.

ghost use Rattle.std.specs.Prelude.{◌≡◌, filter, length, map, min, reverse, slice_get, take};
ghost use Rattle.std.specs.Option.{option_map};
ghost use Rattle.sqlite.specs.declared.types.Value.TheVariants.{Int};
ghost use Rattle.edf_tables.specs.Columns.{stored_records, stored_start};
ghost use Rattle.edf_tables.specs.Cells.{cells_of};
ghost use Rattle.edf_tables.specs.Records.{IsReady, records_of, shown_record, starts_after};
ghost use Rattle.edf_tables.specs.Records.{starts_between, starts_from};
ghost use Rattle.edf_tables.specs.Statement.{HasBothTables, tables, IfClean, Gives, OnlyReads};
ghost use Rattle.edf_tables.specs.Statement.{KeepsCommitted, IsCrashSafe};

use crate::row::{MOST_COUNTED, RecordRow, first_count, first_number, records_shown, rows_shown};
use sqlite::{Alter, Connection, Error, params};
use std::alloc::Global;

/// Returns the records of a recording that start between two instants, in the order of starts.
///
/// # Errors
/// `sqlite`'s, or a cell has another type. Committed rows stay; a transaction may be rolled back.
pub fn near_rows<S: Alter>(
    alloc: Global,
    conn: &mut Connection<S>,
    recording: i64,
    after: i64,
    before: i64,
) -> Result<Vec<RecordRow>, Error>
    requires ready { IfClean S.Store conn.old (IsReady recording) }
    ensures near { Gives S.Store conn.new result (λ rows.
        map cells_of rows.items ≡ map shown_record
        (filter (starts_between after before)
        (records_of recording (stored_records (tables S.Store conn.old))))) }
    ensures same { OnlyReads S.Store conn.old conn.new result }
    ensures committed { KeepsCommitted S.Store conn.old conn.new }
    ensures survives { IsCrashSafe S.Store conn.old conn.new }
{
    records_shown(
        alloc,
        conn,
        "SELECT start, samples, block FROM record \
            WHERE recording = ?1 AND start > ?2 AND start < ?3 ORDER BY start",
        params![recording, after, before],
    )
}

/// Returns the first `limit` records of a recording that start after an instant, in that order.
///
/// # Errors
/// `sqlite`'s, or a cell has another type. Committed rows stay; a transaction may be rolled back.
pub fn page_rows<S: Alter>(
    alloc: Global,
    conn: &mut Connection<S>,
    recording: i64,
    after: i64,
    limit: u32,
) -> Result<Vec<RecordRow>, Error>
    requires ready { IfClean S.Store conn.old (IsReady recording) }
    ensures page { Gives S.Store conn.new result (λ rows.
        map cells_of rows.items ≡ map shown_record
        (take limit (filter (starts_after after)
        (records_of recording (stored_records (tables S.Store conn.old)))))) }
    ensures same { OnlyReads S.Store conn.old conn.new result }
    ensures committed { KeepsCommitted S.Store conn.old conn.new }
    ensures survives { IsCrashSafe S.Store conn.old conn.new }
{
    records_shown(
        alloc,
        conn,
        "SELECT start, samples, block FROM record \
            WHERE recording = ?1 AND start > ?2 ORDER BY start LIMIT ?3",
        params![recording, after, limit],
    )
}

/// Counts the records of a recording, up to [`MOST_COUNTED`].
///
/// # Errors
/// `sqlite`'s, or a cell has another type. Committed rows stay; a transaction may be rolled back.
pub fn count_rows<S: Alter>(conn: &mut Connection<S>, recording: i64) -> Result<u64, Error>
    requires schema { IfClean S.Store conn.old HasBothTables }
    ensures count { Gives S.Store conn.new result (λ count.
        count ≡ min (length (records_of recording (stored_records (tables S.Store conn.old))))
        MOST_COUNTED) }
    ensures same { OnlyReads S.Store conn.old conn.new result }
    ensures committed { KeepsCommitted S.Store conn.old conn.new }
    ensures survives { IsCrashSafe S.Store conn.old conn.new }
{
    let rows = rows_shown(
        conn,
        "SELECT count(*) FROM record WHERE recording = ?1",
        params![recording],
    )?;
    first_count(rows)
}

/// Returns the first start of a recording's records.
///
/// # Errors
/// `sqlite`'s, or a cell has another type. Committed rows stay; a transaction may be rolled back.
pub fn first_start<S: Alter>(conn: &mut Connection<S>, recording: i64) -> Result<Option<i64>, Error>
    requires ready { IfClean S.Store conn.old (IsReady recording) }
    ensures first { Gives S.Store conn.new result (λ start.
        option_map Int start ≡ option_map (λ row. stored_start row)
        (slice_get (records_of recording (stored_records (tables S.Store conn.old))) 0)) }
    ensures same { OnlyReads S.Store conn.old conn.new result }
    ensures committed { KeepsCommitted S.Store conn.old conn.new }
    ensures survives { IsCrashSafe S.Store conn.old conn.new }
{
    let rows = rows_shown(
        conn,
        "SELECT start FROM record WHERE recording = ?1 ORDER BY start LIMIT 1",
        params![recording],
    )?;
    first_number(rows)
}

/// Returns the first start of a recording's records that is `from` or later.
///
/// # Errors
/// `sqlite`'s, or a cell has another type. Committed rows stay; a transaction may be rolled back.
pub fn next_start<S: Alter>(
    conn: &mut Connection<S>,
    recording: i64,
    from: i64,
) -> Result<Option<i64>, Error>
    requires ready { IfClean S.Store conn.old (IsReady recording) }
    ensures next { Gives S.Store conn.new result (λ start.
        option_map Int start ≡ option_map (λ row. stored_start row)
        (slice_get (filter (starts_from from)
        (records_of recording (stored_records (tables S.Store conn.old)))) 0)) }
    ensures same { OnlyReads S.Store conn.old conn.new result }
    ensures committed { KeepsCommitted S.Store conn.old conn.new }
    ensures survives { IsCrashSafe S.Store conn.old conn.new }
{
    let rows = rows_shown(
        conn,
        "SELECT start FROM record WHERE recording = ?1 AND start >= ?2 ORDER BY start LIMIT 1",
        params![recording, from],
    )?;
    first_number(rows)
}

/// Returns the last start of a recording's records.
///
/// # Errors
/// `sqlite`'s, or a cell has another type. Committed rows stay; a transaction may be rolled back.
pub fn last_start<S: Alter>(conn: &mut Connection<S>, recording: i64) -> Result<Option<i64>, Error>
    requires ready { IfClean S.Store conn.old (IsReady recording) }
    ensures last { Gives S.Store conn.new result (λ start.
        option_map Int start ≡ option_map (λ row. stored_start row)
        (slice_get (reverse (records_of recording (stored_records (tables S.Store conn.old)))) 0)) }
    ensures same { OnlyReads S.Store conn.old conn.new result }
    ensures committed { KeepsCommitted S.Store conn.old conn.new }
    ensures survives { IsCrashSafe S.Store conn.old conn.new }
{
    let rows = rows_shown(
        conn,
        "SELECT start FROM record WHERE recording = ?1 ORDER BY start DESC LIMIT 1",
        params![recording],
    )?;
    first_number(rows)
}

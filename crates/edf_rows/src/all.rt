//! All rows of both tables are checked.

ghost use Rattle.std.specs.Prelude.{◌≡◌, ◌<◌, true, Ok, IfOk, IfSome, MatchOption, IsPermutation};
ghost use Rattle.std.specs.Prelude.{IsSorted, IsTrue};
ghost use Rattle.sqlite.specs.Held.{state};
ghost use Rattle.sqlite.specs.State.{HasCleanDisk, IsLive};
ghost use Rattle.edf_tables.specs.Columns.{id_order};
ghost use Rattle.edf_rows.specs.Cells.{recordings_in};
ghost use Rattle.edf_rows.specs.Inside.Checked.{OnlyChecks};
ghost use Rattle.edf_rows.specs.Inside.All.{IsAfter, IsNotAfter, Counts, Answers};
ghost use Rattle.edf_tables.specs.Statement.{HasBothTables, tables, IfClean, Gives, ChangesOnOk};

use crate::check::check_recording_row;
use edf_tables::{MOST_COUNTED, count_all_rows, recordings};
use sqlite::types::ValueRef;
use sqlite::{Alter, Connection, Error, ErrorCode, Row};
use std::alloc::Global;

/// Returns the id of a row, if it comes after the last one.
fn next_id(row: &Row, last: Option<i64>) -> Option<i64>
    ensures { MatchOption result (IsNotAfter last row.now) (IsAfter last row.now) }
{
    let Ok(ValueRef::Int(id)) = row.get_ref(0) else {
        return None;
    };
    let Some(last) = last else {
        return Some(id);
    };
    if last.cmp(&id).is_lt() {
        Some(id)
    } else {
        None
    }
}

/// Counts the records of the recordings; `None` where the rows are foreign, as where an id occurs
/// twice.
///
/// # Errors
/// `sqlite`'s; `OutOfMemory` where memory runs out; `IntegerOverflow` where the recordings have
/// [`MOST_COUNTED`] records or more, since no count of all rows is above it.
fn count_owned<S: Alter>(
    alloc: Global,
    conn: &mut Connection<S>,
    rows: &[Row],
    cap: u32,
) -> Result<Option<u64>, Error>
    requires schema { IfClean S.Store conn.old HasBothTables }
    requires listed { IfClean S.Store conn.old (λ s.
        IsPermutation (recordings_in s.now.trees) rows.now) }
    requires ordered { HasCleanDisk (state S.Store conn.old) → IsSorted id_order rows.now }
    ensures checks { OnlyChecks S.Store conn.old conn.new result }
    ensures counts { Gives S.Store conn.new result (Counts cap (tables S.Store conn.old) rows.now) }
    ensures low { IfOk result (λ o. IfSome o (λ sum. sum < MOST_COUNTED)) }
{
    let mut sum: u64 = 0;
    let mut last = None;
    for row in rows {
        let Some(count) = check_recording_row(alloc, conn, row, cap)? else {
            return Ok(None);
        };
        let Some(id) = next_id(row, last) else {
            return Ok(None);
        };
        let more = sum + u64::from(count);
        if more >= MOST_COUNTED {
            return Err(Error::SqliteFailure(ErrorCode::IntegerOverflow));
        }
        sum = more;
        last = Some(id);
    }
    Ok(Some(sum))
}

/// Is true where submissions under the cap can make the rows.
///
/// # Errors
/// Those of `count_owned`.
pub(crate) fn check_all<S: Alter>(
    alloc: Global,
    conn: &mut Connection<S>,
    cap: u32,
) -> Result<bool, Error>
    requires schema { IfClean S.Store conn.old HasBothTables }
    ensures checks { OnlyChecks S.Store conn.old conn.new result }
    ensures answers { Gives S.Store conn.new result (Answers cap (tables S.Store conn.old)) }
    ensures is_open { ChangesOnOk S.Store conn.old conn.new result (λ _ new. IsTrue new.is_open) }
    ensures live { result ≡ Ok true → IsLive (state S.Store conn.new) }
{
    let found = recordings(conn)?;
    let Some(sum) = count_owned(alloc, conn, &found, cap)? else {
        return Ok(false);
    };
    let all = count_all_rows(conn)?;
    // The rows obey the UNIQUE of the schema, so no identity occurs twice.
    let _ = conn.schema();
    Ok(sum == all)
}

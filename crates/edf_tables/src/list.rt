//! The table `recording` is read by id and by identity, and the rows of `record` are counted.

ghost use Rattle.std.specs.Prelude.{◌≡◌, IsPermutation, IsSorted, length, map, min};
ghost use Rattle.sqlite.specs.declared.types.Value.TheVariants.{Blob};
ghost use Rattle.edf_tables.specs.Columns.{stored_recordings, stored_records};
ghost use Rattle.edf_tables.specs.Columns.{stored_identity, id_order};
ghost use Rattle.edf_tables.specs.Refused.{IsUnchangedOrRolledBack};
ghost use Rattle.edf_tables.specs.Recordings.{AreNamedApart, IsIdIn, by_identity, named};
ghost use Rattle.edf_tables.specs.Recordings.{shown_recording};
ghost use Rattle.edf_tables.specs.Statement.{HasBothTables, tables, IfClean, Gives, OnlyReads};
ghost use Rattle.edf_tables.specs.Statement.{KeepsCommitted, IsCrashSafe, ChangesOnErr};

use crate::row::{MOST_COUNTED, first_count, first_number, identities_in, rows_shown};
use sqlite::{Alter, Connection, Error, Row, params};

/// Returns the id of the recording with this identity, if there is one.
///
/// # Errors
/// `sqlite`'s, or a cell has another type. Committed rows stay; a transaction may be rolled back.
pub fn select_recording<S: Alter>(
    conn: &mut Connection<S>,
    identity: &[u8],
) -> Result<Option<i64>, Error>
    requires schema { IfClean S.Store conn.old HasBothTables }
    ensures id { Gives S.Store conn.new result
        (IsIdIn (named identity.now (stored_recordings (tables S.Store conn.old)))) }
    ensures same { OnlyReads S.Store conn.old conn.new result }
    ensures committed { KeepsCommitted S.Store conn.old conn.new }
    ensures survives { IsCrashSafe S.Store conn.old conn.new }
{
    let rows = rows_shown(
        conn,
        "SELECT id FROM recording WHERE identity = ?1",
        params![identity],
    )?;
    first_number(rows)
}

/// Returns the identities of all recordings, in the order of their bytes.
///
/// # Errors
/// `sqlite`'s, or a cell has another type. Committed rows stay; a transaction may be rolled back.
pub fn identities<S: Alter>(conn: &mut Connection<S>) -> Result<Vec<Vec<u8>>, Error>
    requires apart { IfClean S.Store conn.old AreNamedApart }
    ensures identities { Gives S.Store conn.new result (λ all.
        map (λ b. Blob b.items) all.items ≡
        map (λ row. stored_identity row)
        (by_identity (stored_recordings (tables S.Store conn.old)))) }
    ensures same { OnlyReads S.Store conn.old conn.new result }
    ensures committed { KeepsCommitted S.Store conn.old conn.new }
    ensures survives { IsCrashSafe S.Store conn.old conn.new }
{
    let rows = rows_shown(
        conn,
        "SELECT identity FROM recording ORDER BY identity",
        &[],
    )?;
    identities_in(rows)
}

/// Returns the id and the identity of each recording, in the order of ids, whatever types the cells
/// have. Without ORDER BY they would come in the order of the index of identities.
///
/// # Errors
/// `sqlite`'s. Committed rows stay; a transaction may be rolled back.
pub fn recordings<S: Alter>(conn: &mut Connection<S>) -> Result<Vec<Row>, Error>
    requires schema { IfClean S.Store conn.old HasBothTables }
    ensures listed { Gives S.Store conn.new result (λ rows.
        IsPermutation (map shown_recording
        (stored_recordings (tables S.Store conn.old))) rows.items) }
    ensures ordered { Gives S.Store conn.new result (λ rows. IsSorted id_order rows.items) }
    ensures same { OnlyReads S.Store conn.old conn.new result }
    ensures committed { KeepsCommitted S.Store conn.old conn.new }
    ensures refused { ChangesOnErr S.Store conn.old conn.new result IsUnchangedOrRolledBack }
    ensures survives { IsCrashSafe S.Store conn.old conn.new }
{
    rows_shown(conn, "SELECT id, identity FROM recording ORDER BY id", &[])
}

/// Counts all rows of `record`, also those without a recording, up to [`MOST_COUNTED`].
///
/// # Errors
/// `sqlite`'s, or a cell has another type. Committed rows stay; a transaction may be rolled back.
pub fn count_all_rows<S: Alter>(conn: &mut Connection<S>) -> Result<u64, Error>
    requires schema { IfClean S.Store conn.old HasBothTables }
    ensures count { Gives S.Store conn.new result (λ count.
        count ≡ min (length (stored_records (tables S.Store conn.old))) MOST_COUNTED) }
    ensures same { OnlyReads S.Store conn.old conn.new result }
    ensures committed { KeepsCommitted S.Store conn.old conn.new }
    ensures refused { ChangesOnErr S.Store conn.old conn.new result IsUnchangedOrRolledBack }
    ensures survives { IsCrashSafe S.Store conn.old conn.new }
{
    let rows = rows_shown(conn, "SELECT count(*) FROM record", &[])?;
    first_count(rows)
}

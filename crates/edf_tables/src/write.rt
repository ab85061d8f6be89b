//! Rows are added by these texts.

ghost use Rattle.std.specs.Prelude.{◌≡◌};
ghost use Rattle.sqlite.specs.Held.{state};
ghost use Rattle.sqlite_rules.specs.Edit.{next_rowid};
ghost use Rattle.edf_tables.specs.Columns.{stored_recordings};
ghost use Rattle.edf_tables.specs.Row.{cells, named_cells, HasRecord, HasRecording, IsInside};
ghost use Rattle.edf_tables.specs.Statement.{tables, IfClean, Gives, ChangesOnOk};
ghost use Rattle.edf_tables.specs.Statement.{KeepsCommittedOnErr, IsCrashSafe};

use sqlite::{Alter, Connection, Error, params};

/// Adds a row to `recording`, and returns its id.
///
/// # Errors
/// `sqlite`'s: `TooBig` above 10^9 bytes, and a rule's where a recording has the identity.
/// Committed rows stay; the transaction may be rolled back.
pub fn insert_recording<S: Alter>(conn: &mut Connection<S>, identity: &[u8]) -> Result<i64, Error>
    requires { IfClean S.Store conn.old IsInside }
    ensures added { Gives S.Store conn.new result (λ id.
        HasRecording (state S.Store conn.old) (state S.Store conn.new) (named_cells identity.now)
        × (id ≡ next_rowid (stored_recordings (tables S.Store conn.old)))) }
    ensures refused { KeepsCommittedOnErr S.Store conn.old conn.new result }
    ensures survives { IsCrashSafe S.Store conn.old conn.new }
{
    conn.execute(
        "INSERT INTO recording (identity) VALUES (?1)",
        params![identity],
    )?;
    Ok(conn.last_insert_rowid())
}

/// Adds a row to `record`. Nothing is promised of the number, `sqlite`'s count of changed rows.
///
/// # Errors
/// `sqlite`'s: `TooBig` above 10^9 bytes, and a rule's where the recording has a record of this
/// start. Committed rows stay; the transaction may be rolled back.
pub fn insert_record<S: Alter>(
    conn: &mut Connection<S>,
    recording: i64,
    start: i64,
    samples: &[u8],
    block: &[u8],
) -> Result<usize, Error>
    requires { IfClean S.Store conn.old IsInside }
    ensures added { ChangesOnOk S.Store conn.old conn.new result (λ old new.
        HasRecord old new (cells recording start samples.now block.now)) }
    ensures refused { KeepsCommittedOnErr S.Store conn.old conn.new result }
    ensures survives { IsCrashSafe S.Store conn.old conn.new }
{
    conn.execute(
        "INSERT INTO record VALUES (?1, ?2, ?3, ?4)",
        params![recording, start, samples, block],
    )
}

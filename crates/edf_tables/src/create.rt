//! CREATE texts make the two tables.

ghost use Rattle.std.specs.Prelude.{◌≡◌, ◌⊎◌, [], Ok};
ghost use Rattle.sqlite.specs.Held.{state};
ghost use Rattle.sqlite.specs.State.{Survives};
ghost use Rattle.edf_tables.specs.Columns.{stored_recordings, stored_records};
ghost use Rattle.edf_tables.specs.Schema.{no_schema, one_schema, both_schema, HasBoth};
ghost use Rattle.edf_tables.specs.Made.{IsOurs, AreOf, HasFirst, HasTables, KeepsFile, IsMadeOf};
ghost use Rattle.edf_tables.specs.Statement.{IfClean, ChangesOnOk, KeepsCommittedOnErr};

use crate::schema::has_both;
use sqlite::{Alter, Connection, Error};

/// Makes the table `recording` in an empty file, and does nothing where it is there alone. Nothing
/// is promised of the number, `sqlite`'s count of changed rows.
///
/// # Errors
/// `sqlite`'s; nothing is committed then. After a crash the file is as it was, or has the table.
fn create_recording<S: Alter>(conn: &mut Connection<S>) -> Result<usize, Error>
    requires { IfClean S.Store conn.old (λ s.
        (s.now.schema ≡ no_schema) ⊎ (s.now.schema ≡ one_schema)) }
    ensures made { ChangesOnOk S.Store conn.old conn.new result
        (λ old new. HasFirst old.now new.now) }
    ensures refused { KeepsCommittedOnErr S.Store conn.old conn.new result }
    ensures stays { IfClean S.Store conn.new (KeepsFile (state S.Store conn.old)) }
    ensures mode { ChangesOnOk S.Store conn.old conn.new result (λ old new.
        new.in_transaction ≡ old.in_transaction) }
    ensures survives { Survives (state S.Store conn.old) (state S.Store conn.new) (λ db.
        ((state S.Store conn.old).now.schema ≡ no_schema) × AreOf one_schema db
        × (stored_recordings db ≡ [])) }
{
    conn.execute(
        "CREATE TABLE IF NOT EXISTS recording (\
            id INTEGER PRIMARY KEY, identity BLOB NOT NULL UNIQUE) STRICT",
        &[],
    )
}

/// Makes the table `record` where `recording` is there alone. Nothing is promised of the number.
///
/// # Errors
/// `sqlite`'s; nothing is committed then. After a crash the file is as it was, or has the table.
fn create_records<S: Alter>(conn: &mut Connection<S>) -> Result<usize, Error>
    requires { IfClean S.Store conn.old (λ s. s.now.schema ≡ one_schema) }
    ensures made { ChangesOnOk S.Store conn.old conn.new result
        (λ old new. HasTables old.now new.now) }
    ensures refused { KeepsCommittedOnErr S.Store conn.old conn.new result }
    ensures stays { IfClean S.Store conn.new (KeepsFile (state S.Store conn.old)) }
    ensures mode { ChangesOnOk S.Store conn.old conn.new result (λ old new.
        new.in_transaction ≡ old.in_transaction) }
    ensures survives { Survives (state S.Store conn.old) (state S.Store conn.new) (λ db.
        ((state S.Store conn.old).now.schema ≡ one_schema) × AreOf both_schema db
        × (stored_recordings db ≡ stored_recordings (state S.Store conn.old).now.trees)
        × (stored_records db ≡ [])) }
{
    conn.execute(
        "CREATE TABLE IF NOT EXISTS record (\
            recording INTEGER NOT NULL, start INTEGER NOT NULL, \
            samples BLOB NOT NULL, block BLOB NOT NULL, PRIMARY KEY (recording, start)) STRICT",
        &[],
    )
}

/// Makes those of the two tables that are missing. Does nothing where both are there.
///
/// # Errors
/// `sqlite`'s; committed rows stay, a transaction may be rolled back, and the first table may have
/// been made. After a crash the file is as it was, has the first table, or has both.
pub fn create_tables<S: Alter>(conn: &mut Connection<S>) -> Result<(), Error>
    requires { IfClean S.Store conn.old (λ s. IsOurs s.now) }
    ensures there { HasBoth (state S.Store conn.old).now.schema →
        (result ≡ Ok tt) × (conn.new ≡ conn.old) }
    ensures made { ChangesOnOk S.Store conn.old conn.new result
        (λ old new. HasTables old.now new.now) }
    ensures stays { IfClean S.Store conn.new (KeepsFile (state S.Store conn.old)) }
    ensures mode { ChangesOnOk S.Store conn.old conn.new result (λ old new.
        new.in_transaction ≡ old.in_transaction) }
    ensures survives { Survives (state S.Store conn.old) (state S.Store conn.new)
        (IsMadeOf (state S.Store conn.old).now) }
{
    if has_both(conn.schema()) {
        return Ok(());
    }
    create_recording(conn)?;
    create_records(conn)?;
    Ok(())
}

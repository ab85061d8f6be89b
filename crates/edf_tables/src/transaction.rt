//! Transactions begin and end by these texts.

ghost use Rattle.std.specs.Prelude.{◌≡◌, false, true};
ghost use Rattle.sqlite.specs.Held.{state};
ghost use Rattle.sqlite.specs.State.{Shows, Survives, IsRolledBack};
ghost use Rattle.edf_tables.specs.Statement.{tables, IfClean, ChangesOnOk, KeepsCommitted};
ghost use Rattle.edf_tables.specs.Statement.{KeepsCommittedOnErr, IsCrashSafe};

use sqlite::{Alter, Connection, Error};

/// Begins a transaction.
///
/// # Errors
/// `sqlite`'s, also where a transaction is open; what is committed stays.
pub fn begin<S: Alter>(conn: &mut Connection<S>) -> Result<(), Error>
    ensures begun { ChangesOnOk S.Store conn.old conn.new result (λ old new.
        Shows old new old.now old.committed true) }
    ensures refused { KeepsCommittedOnErr S.Store conn.old conn.new result }
    ensures survives { IsCrashSafe S.Store conn.old conn.new }
{
    conn.execute("BEGIN", &[])?;
    Ok(())
}

/// Commits the transaction: what it shows is then what is committed.
///
/// # Errors
/// `sqlite`'s, also where no transaction is open. What was committed before stays, and the
/// transaction is over. After a crash either that is committed, or all of the transaction.
pub fn commit<S: Alter>(conn: &mut Connection<S>) -> Result<(), Error>
    ensures committed { ChangesOnOk S.Store conn.old conn.new result (λ old new.
        Shows old new old.now old.now false) }
    ensures refused { KeepsCommittedOnErr S.Store conn.old conn.new result }
    ensures ended { IfClean S.Store conn.new (λ s. s.in_transaction ≡ false) }
    ensures survives { Survives (state S.Store conn.old) (state S.Store conn.new) (λ db.
        db ≡ tables S.Store conn.old) }
{
    conn.execute("COMMIT", &[])?;
    Ok(())
}

/// Rolls the transaction back: what is shown is again what is committed.
///
/// # Errors
/// `sqlite`'s, also where no transaction is open; what is committed stays.
pub fn roll_back<S: Alter>(conn: &mut Connection<S>) -> Result<(), Error>
    ensures undone { ChangesOnOk S.Store conn.old conn.new result IsRolledBack }
    ensures committed { KeepsCommitted S.Store conn.old conn.new }
    ensures survives { IsCrashSafe S.Store conn.old conn.new }
{
    conn.execute("ROLLBACK", &[])?;
    Ok(())
}

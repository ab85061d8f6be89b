//! A file is checked as a store is opened.

ghost use Rattle.std.specs.Prelude.{◌≡◌, Ok, false, true, IsTrue};
ghost use Rattle.sqlite.specs.Held.{state};
ghost use Rattle.sqlite.specs.State.{IsLive, Survives};
ghost use Rattle.edf_tables.specs.Made.{IsOurs, HasTables, KeepsFile, IsMadeOf};
ghost use Rattle.edf_rows.specs.Inside.All.{Answers};
ghost use Rattle.edf_rows.specs.File.{Audits};
ghost use Rattle.edf_tables.specs.Statement.{tables, IfClean, Gives, ChangesOnOk};

use crate::all::check_all;
use edf_tables::{create_tables, is_ours};
use sqlite::{Alter, Connection, Error, ErrorCode};
use std::alloc::Global;

/// Makes those of our tables that are missing; returns true where submissions under the cap can
/// make their rows. What another tool put after both tables stays.
///
/// # Errors
/// Those of [`audit`].
fn audit_tables<S: Alter>(alloc: Global, conn: &mut Connection<S>, cap: u32) -> Result<bool, Error>
    requires ours { IfClean S.Store conn.old (λ s. IsOurs s.now) }
    ensures tables { ChangesOnOk S.Store conn.old conn.new result
        (λ old new. HasTables old.now new.now) }
    ensures answers { Gives S.Store conn.new result (Answers cap (tables S.Store conn.new)) }
    ensures is_open { ChangesOnOk S.Store conn.old conn.new result (λ _ new. IsTrue new.is_open) }
    ensures live { result ≡ Ok true → IsLive (state S.Store conn.new) }
    ensures settled { ChangesOnOk S.Store conn.old conn.new result
        (λ _ new. new.committed ≡ new.now) }
    ensures idle { ChangesOnOk S.Store conn.old conn.new result
        (λ _ new. new.in_transaction ≡ false) }
    ensures stays { IfClean S.Store conn.new (KeepsFile (state S.Store conn.old)) }
    ensures survives { Survives (state S.Store conn.old) (state S.Store conn.new)
        (IsMadeOf (state S.Store conn.old).now) }
{
    create_tables(conn)?;
    if !conn.is_autocommit() {
        return Err(Error::SqliteFailure(ErrorCode::TransactionState));
    }
    check_all(alloc, conn, cap)
}

/// Returns true where submissions under the cap can make the file. Where its tables are ours, those
/// of the two that are missing are made.
///
/// The tables are ours in an empty file, and in one with the first table alone or with both first
/// and in their order. After both there may be anything that is not on them: it stays as it is. An
/// index or a trigger on one of the two makes a file another's, which stays as it is. Whatever is
/// returned, committed rows stay, and what is shown stays or a transaction is rolled back.
///
/// # Errors
/// `sqlite`'s; `OutOfMemory` where memory runs out; `TransactionState` where a transaction is open;
/// `IntegerOverflow` where the recordings have `MOST_COUNTED` of `edf_tables` records or more.
/// Tables may have been made. After a crash no table, the first, or both are made.
pub fn audit<S: Alter>(alloc: Global, conn: &mut Connection<S>, cap: u32) -> Result<bool, Error>
    ensures other { ¬ IsOurs (state S.Store conn.old).now →
        (result ≡ Ok false) × (conn.new ≡ conn.old) }
    ensures tables { IsOurs (state S.Store conn.old).now →
        ChangesOnOk S.Store conn.old conn.new result (λ old new. HasTables old.now new.now) }
    ensures answers { Gives S.Store conn.new result
        (Audits cap (state S.Store conn.old) (state S.Store conn.new)) }
    ensures live { result ≡ Ok true → IsLive (state S.Store conn.new) }
    ensures stays { IfClean S.Store conn.new (KeepsFile (state S.Store conn.old)) }
    ensures survives { Survives (state S.Store conn.old) (state S.Store conn.new)
        (IsMadeOf (state S.Store conn.old).now) }
{
    if !is_ours(conn.schema()) {
        return Ok(false);
    }
    audit_tables(alloc, conn, cap)
}

//! The laws of many runs and sessions: each function has some for a contract, and does nothing.

ghost use Rattle.std.specs.Prelude.{ℕ, ◌≡◌, ◌≤◌, ◌∷◌, ◌++◌, List, Option, Some, Ok, IsTrue};
ghost use Rattle.std.specs.Prelude.{Contains};
ghost use Rattle.std.specs.List.{AllByRecursion};
ghost use Rattle.sqlite_disk.specs.declared.Files.{Files};
ghost use Rattle.sqlite_wal.specs.Files.{outcomes};
ghost use Rattle.sqlite_wal.specs.Reads.{AreClean};
ghost use Rattle.sqlite_wal.specs.Recovery.{Image};
ghost use Rattle.sqlite_store.specs.Unopened.{state_of};
ghost use Rattle.sqlite_store.specs.declared.store.open.Unopened.{Unopened};
ghost use Rattle.sqlite.specs.Files.{IsNothing};
ghost use Rattle.sqlite.specs.declared.error.Error.{Error};
ghost use Rattle.sqlite.specs.declared.file.Leftover.TheVariants as leftover;
ghost use Rattle.edf_fragment.specs.Fragment.{DataRecord};
ghost use Rattle.edf_fragment.specs.Parsed.{Fragment};
ghost use Rattle.edf_holdings.specs.Holdings.{Holdings, IsSound, nothing_held};
ghost use Rattle.edf_intake.specs.Batch.{Turn, IsConsistentTurn};
ghost use Rattle.edf_intake.specs.declared.answer.Receipt.{Receipt};
ghost use Rattle.edfstore_files.specs.Files.{FilesHold};
ghost use Rattle.edfstore_files.specs.ProgramRun.{IsLeftover};
ghost use Rattle.edfstore_files.specs.Turns.{given_in, IsSubmittedPrefix, LeadsTo, StepsBy};
ghost use Rattle.edfstore_files.specs.Turns.{PastRun, ended, idle, interrupted, Follow};
ghost use Rattle.edfstore_files.specs.Turns.{HeadlineAfterRuns};

use sqlite_disk::Disk;

/// States the headline across runs and sessions (`law`). They follow one another: each opens the
/// files as the one before closed them, or as a crash of it made them. Then the files hold the
/// result of one list of submissions, of which the headline is true. A run that was closed adds all
/// its files, in order, and answered the replies to them; an interrupted one adds a prefix. After a
/// run that was closed the files hold all data records of each file that it answered as accepted
/// (`accepted`). Without a database nothing is held (`first`). A run that released its files
/// unclosed was interrupted (`unclosed`). What files hold under one cap they hold under a greater
/// one (`wider`).
pub fn across_runs()
    ensures law { (cap : ℕ) (runs : List PastRun) (h : Holdings) (start end : Image) →
        IsSound cap h → FilesHold cap start h → Follow cap runs start end →
        ∥ HeadlineAfterRuns cap runs h end ∥₁ }
    ensures accepted { (cap : ℕ) (turns : List Turn) (start end : Image) (h : Holdings) →
        FilesHold cap start h → StepsBy cap (ended turns) start end →
        ∥ ((k : Holdings) × FilesHold cap end k × ((before behind : List Turn) (t : Turn)
        (receipt : Receipt) → turns ≡ before ++ (t ∷ behind) → t.answer ≡ Ok receipt →
        (records : List DataRecord) × (t.submission ≡ Some (Fragment receipt.identity records))
        × ((r : DataRecord) → Contains records r → Contains (k receipt.identity) r))) ∥₁ }
    ensures first { (cap : ℕ) (start : Image) → IsNothing start →
        FilesHold cap start nothing_held }
    ensures unclosed { (cap : ℕ) (turns : List Turn) (given rest : List (Option (List ℕ)))
        (start end : Image) → AllByRecursion IsConsistentTurn turns →
        given ≡ given_in turns ++ rest → LeadsTo cap (λ h. IsSubmittedPrefix turns) start end →
        StepsBy cap (interrupted given) start end }
    ensures wider { (cap more : ℕ) (image : Image) (h : Holdings) → cap ≤ more →
        FilesHold cap image h → FilesHold more image h }
{}

/// States that an opening that failed changed nothing of what the files hold, also after a crash:
/// where they were only read (`read`), or had no database and one was begun (`begun`).
pub fn an_opening_that_failed<D: Disk>()
    ensures read { (cap : ℕ) (start : Image) (error : Error) (files : Files D) →
        IsLeftover {g = D.Disk} start error (leftover.Files files) →
        AreClean D.Disk files.log files.db → (image : Image) →
        outcomes D.Disk files.log files.db image → StepsBy cap idle start image }
    ensures begun { (cap : ℕ) (start : Image) (error : Error) (it : Unopened D D.Disk) →
        IsLeftover {g = D.Disk} start error (leftover.Unopened it) →
        IsTrue (state_of it).is_clean → IsNothing start → (image : Image) →
        (state_of it).may_leave image → StepsBy cap idle start image }
{}

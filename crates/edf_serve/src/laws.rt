//! Laws of sessions: each function has one for a contract, and does nothing.

ghost use Rattle.edf_serve.specs.Laws.{AsksOnce, BrokenOffEndsAlike, TakenIsHeld};

use sqlite::Alter;

/// A line asks for one thing at most.
pub fn asks_once()
    ensures { AsksOnce }
{}

/// A session that ended after some line, and whose answers told what their files tell, ends alike
/// where it is begun again with all its files: another session submits what its files told, and
/// more, and leaves what one session leaves that is not broken off. So where the bytes of the files
/// are known, and no answer is for memory, the store or a reader that failed.
pub fn broken_off<S: Alter>()
    ensures { BrokenOffEndsAlike S.Store }
{}

/// What the receipt of an accepted file tells is held by the store that the submission left.
pub fn taken_is_held<S: Alter>()
    ensures { TakenIsHeld S.Store }
{}

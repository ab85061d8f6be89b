//! Laws about lists of submissions. Each function has laws as its contract, and does nothing.

ghost use Rattle.edf_holdings.specs.Laws.{HeldIsKnown, AcceptedAgain, RefusedAgain};
ghost use Rattle.edf_holdings.specs.Laws.{RepeatsChangeNothing, ResentFromStart};
ghost use Rattle.edf_holdings.specs.Laws.{ConflictFreeIsAccepted, Reordered, OneIsConflictFree};
ghost use Rattle.edf_holdings.specs.Laws.{Recut, SameRecordsStayConflictFree};
ghost use Rattle.edf_holdings.specs.Meaning.{OwnRecordsAreKnown};
ghost use Rattle.edf_intake.specs.Batch.{OneByOneIsAsList};

use sqlite::Alter;

/// Repeats add nothing. A fragment that is held, or repeats an accepted one, is accepted with none
/// new; a repeat of a refused one is refused again; without a repeat all else is the same. A list
/// that is broken off and sent again from its start gives the same holdings as the list sent once.
pub fn once()
    ensures held { HeldIsKnown }
    ensures accepted { AcceptedAgain }
    ensures refused { RefusedAgain }
    ensures taken_out { RepeatsChangeNothing }
    ensures resent { ResentFromStart }
{
    edf_holdings::laws::once();
}

/// A conflict-free list is accepted whole. Reordered, or with repeats, it is still conflict-free
/// and gives the same holdings.
pub fn any_order()
    ensures accepted { ConflictFreeIsAccepted }
    ensures reordered { Reordered }
    ensures alone { OneIsConflictFree }
{
    edf_holdings::laws::any_order();
}

/// Conflict-free lists with the same records give the same holdings, however they are cut; and if
/// one is conflict-free, so is the other. A recording's own data records are accepted with nothing
/// new where they are held; where nothing is held, just that recording is held after them.
pub fn recut()
    ensures same { Recut }
    ensures conflict_free { SameRecordsStayConflictFree }
    ensures own { OwnRecordsAreKnown }
{
    edf_holdings::laws::recut();
    edf_holdings::meaning::intake();
}

/// Submissions one after another are one list: what is held then is what is held after the list,
/// and the answers are the replies to it. Members for which memory ran out, or a read or the store
/// failed, add nothing. After a crash some first members are held, perhaps with the next.
pub fn as_one_list<S: Alter>()
    ensures { OneByOneIsAsList S.Store }
{}

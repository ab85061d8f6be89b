//! Lists of submissions have these laws: each function's contract is laws, and its body is empty.

ghost use Rattle.edf_holdings.specs.Laws.{ParsedIsWellFormed, AddStaysSound, RepeatsChangeNothing};
ghost use Rattle.edf_holdings.specs.Laws.{ResentFromStart, OneIsConflictFree, NothingHeldIsSound};
ghost use Rattle.edf_holdings.specs.Laws.{StaysSound, AcceptedAgain, HeldIsKnown, RefusedAgain};
ghost use Rattle.edf_holdings.specs.Laws.{ConflictFreeIsAccepted, SameRecordsStayConflictFree};
ghost use Rattle.edf_holdings.specs.Laws.{Reordered, Recut};

/// What bytes parse to is well-formed; empty holdings are sound, and sound ones stay so.
pub fn stays_sound()
    ensures well_formed { ParsedIsWellFormed }
    ensures none { NothingHeldIsSound }
    ensures after { StaysSound }
    ensures add { AddStaysSound }
{}

/// Repeats add nothing, and a list broken off and sent again gives the same holdings.
pub fn once()
    ensures held { HeldIsKnown }
    ensures accepted { AcceptedAgain }
    ensures refused { RefusedAgain }
    ensures taken_out { RepeatsChangeNothing }
    ensures resent { ResentFromStart }
{}

/// A list without conflicts is accepted whole; reordered or repeated it gives the same holdings.
pub fn any_order()
    ensures accepted { ConflictFreeIsAccepted }
    ensures reordered { Reordered }
    ensures alone { OneIsConflictFree }
{}

/// Lists with the same records have no conflicts if one has none, and give the same holdings.
pub fn recut()
    ensures same { Recut }
    ensures conflict_free { SameRecordsStayConflictFree }
{}

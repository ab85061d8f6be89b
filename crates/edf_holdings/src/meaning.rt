//! The definitions say this in the words of sets: each function's contract is laws.

ghost use Rattle.edf_holdings.specs.Meaning.{SameKeyIsEqual, SameRecordIsEqual, OwnRecordsAreKnown};
ghost use Rattle.edf_holdings.specs.Meaning.{FirstClashExists, AfterHasAccepted, AcceptedWhereFits};
ghost use Rattle.edf_holdings.specs.Meaning.{HoldingsAreSets, TestIsContains, AtMostTwoOverlap};
ghost use Rattle.edf_holdings.specs.Meaning.{TestIsClash, RepliesNameTheClash, UnionWithAllHasBoth};
ghost use Rattle.edf_holdings.specs.Meaning.{RepliesNameTheCounts, ListIsSet, NewRecordsAreCounted};
ghost use Rattle.edf_holdings.specs.Meaning.{OverlappingIsDetermined, RefusedChangesNothing};
ghost use Rattle.edf_holdings.specs.Meaning.{UnionHasBoth, TestIsFits};
ghost use Rattle.edf_holdings.specs.Keys.{KeyListIsUnique};

/// Each test is true exactly where the definition that it is named for is.
pub fn tests()
    ensures key { SameKeyIsEqual }
    ensures record { SameRecordIsEqual }
    ensures clash { TestIsClash }
    ensures holds { TestIsContains }
{}

/// Rising lists and sound holdings are sets of data records; their keys are listed in one way.
pub fn sets()
    ensures list { ListIsSet }
    ensures holdings { HoldingsAreSets }
    ensures union { UnionHasBoth }
    ensures all { UnionWithAllHasBoth }
    ensures keys { KeyListIsUnique }
{}

/// A fragment is accepted where it fits; a refusal names why, and changes nothing.
pub fn intake()
    ensures fits { TestIsFits }
    ensures accepted { AcceptedWhereFits }
    ensures named { RepliesNameTheClash }
    ensures there { FirstClashExists }
    ensures counts { RepliesNameTheCounts }
    ensures new { NewRecordsAreCounted }
    ensures after { AfterHasAccepted }
    ensures refused { RefusedChangesNothing }
    ensures own { OwnRecordsAreKnown }
{}

/// At most two records overlap one with a given start, and their starts select them.
pub fn near()
    ensures two { AtMostTwoOverlap }
    ensures selected { OverlappingIsDetermined }
{}

//! What a person who sends a file may rely on, as laws of the definitions.

ghost use Rattle.edf_mend.specs.Laws.{NobodyIsMerged, GivenCodeIsRead, NobodyIsNamed};
ghost use Rattle.edf_mend.specs.Laws.{AnnotationsAreNoSamples, DataRecordsStay, StartStays};
ghost use Rattle.edf_mend.specs.Laws.{DifferencesAreListed};

/// A file that becomes a recording, with no code given, named its patient, or nobody as it does.
pub fn nobody_is_merged()
    ensures { NobodyIsMerged }
{}

/// A code that was given is the code that is read.
pub fn given_code_is_read()
    ensures { GivenCodeIsRead }
{}

/// Where a code stands in the place of all that a file says of its patient, nothing else is said.
pub fn nobody_is_named()
    ensures { NobodyIsNamed }
{}

/// No annotations signal is read as samples.
pub fn annotations_are_no_samples()
    ensures { AnnotationsAreNoSamples }
{}

/// Samples and annotations of whole data records stay, and those without a start have no gaps.
pub fn data_records_stay()
    ensures { DataRecordsStay }
{}

/// A file starts when it says, or when a person says of one that does not.
pub fn start_stays()
    ensures { StartStays }
{}

/// Each field that differs is listed, and the count.
pub fn differences_are_listed()
    ensures { DifferencesAreListed }
{}

//! Laws of filled files: the contract of each function is laws, and its body does nothing.

ghost use Rattle.edf_runs.specs.FilledLaws.{PlacesRise, PlacesAreNear, PartsStayTogether};
ghost use Rattle.edf_runs.specs.FilledLaws.{AnnotationsMoveLittle, PartsAreWhole};
ghost use Rattle.edf_runs.specs.FilledLaws.{IsOneRun, IsOtherRecording};
ghost use Rattle.edf_runs.specs.Twice.{SameIsRead};

/// Data records come to places in their order, each at most half a part from its start, and the
/// parts of one stay together.
pub fn places()
    ensures rise { PlacesRise }
    ensures near { PlacesAreNear }
    ensures together { PartsStayTogether }
{}

/// An annotation moves by no more than half a part.
pub fn annotations_move_little()
    ensures { AnnotationsMoveLittle }
{}

/// The parts of a signal, one after another, are the signal.
pub fn parts_are_whole()
    ensures { PartsAreWhole }
{}

/// The filled file of a recording that has a gap is of another recording, so that no store takes
/// flat samples for a data record of the recording.
pub fn a_filled_file_is_another_recording()
    ensures { IsOtherRecording }
{}

/// The filled file of a recording without a gap is that of its one run, with annotations by onset.
pub fn without_a_gap_it_is_a_run()
    ensures { IsOneRun }
{}

/// Where the same bytes are read both times, what is filled is the recording that they spell.
pub fn the_same_is_read_twice()
    ensures { SameIsRead }
{}

//! Laws of outlines and of cut files: the contract of each function is a law, and its body does
//! nothing.

ghost use Rattle.edf_runs.specs.CutLaws.{CutsAreTaken, HasAll, IsOfItsFile, StayByOnset};
ghost use Rattle.edf_runs.specs.CutLaws.{TakesWhatMeets};

/// The outline of a file whose bytes are known is of the data records that they spell.
pub fn an_outline_is_of_its_file()
    ensures { IsOfItsFile }
{}

/// The whole time has all data records, so that its cut file is the canonical file.
pub fn the_whole_time_has_all()
    ensures { HasAll }
{}

/// Of a time just those data records are taken that last at one of its instants.
pub fn what_meets_a_time_is_taken()
    ensures { TakesWhatMeets }
{}

/// Where annotations were put by onset in the outline, the data records that are read again have
/// them by onset.
pub fn joined_data_records_stay_by_onset()
    ensures { StayByOnset }
{}

/// A store takes a file and cut files of it, in any order and as often as one likes.
pub fn a_store_takes_cut_files()
    ensures { CutsAreTaken }
{}

//! Laws of runs: the contract of each function is laws, and its body does nothing.

ghost use Rattle.std.specs.Prelude.{◌≡◌, ℕ, ◌≤◌, List, length};
ghost use Rattle.edf_field.specs.Number.{duration_of};
ghost use Rattle.edf_header.specs.declared.limits.TheConstants.{MOST_RECORDS};
ghost use Rattle.edf_header.specs.Key.{Key, IsKey};
ghost use Rattle.edf_fragment.specs.Fragment.{DataRecord};
ghost use Rattle.edf_fragment.specs.Sound.{AreSoundFrom, FirstMayStart};
ghost use Rattle.edf_runs.specs.ByOnset.{EachInItsRun, EachWhereStarted, EachWhereItLies};
ghost use Rattle.edf_runs.specs.ByOnset.{StayAlike, StayInOrder, StaySound};
ghost use Rattle.edf_runs.specs.CanonicalLaws.{StayJoined, WritesByOnset, WritesAlike};
ghost use Rattle.edf_runs.specs.Counted.{OutsideIsNotCovered};
ghost use Rattle.edf_runs.specs.File.{IsRunFile, IsContinuous};
ghost use Rattle.edf_runs.specs.OneByOnset.{AreOneByOnset, AreOneHoweverSpread, StaysByOnset};
ghost use Rattle.edf_runs.specs.OneByOnset.{ToldAlike, PiecesAreOfCard};
ghost use Rattle.edf_runs.specs.Order.{HaveOneOrder};
ghost use Rattle.edf_runs.specs.Rejoined.{RunsRejoin};
ghost use Rattle.edf_runs.specs.Runs.{IsRuns, IsTouching};
ghost use Rattle.edf_runs.specs.Taken.{PiecesAndCardAreTaken};

/// Each list of data records has runs, and no others.
pub fn each_has_its_runs()
    ensures some { (d : ℕ) (records : List DataRecord) →
        (runs : List (List DataRecord)) × IsRuns d records runs }
    ensures one { (d : ℕ) (records : List DataRecord) (runs others : List (List DataRecord)) →
        IsRuns d records runs → IsRuns d records others → runs ≡ others }
{}

/// Sound data records without a gap have one file as a run, where there are 1 to `MOST_RECORDS`
/// and a header can name when the first starts; the file is read again, as one without a gap.
pub fn a_runs_file()
    ensures some { (key : Key) (run : List DataRecord) →
        IsKey key → AreSoundFrom key 0 run → FirstMayStart key run → 1 ≤ length run →
        length run ≤ MOST_RECORDS → IsTouching (duration_of key.duration) run →
        (file : List ℕ) × IsRunFile file key run }
    ensures one { (file other : List ℕ) (key : Key) (run : List DataRecord) →
        IsRunFile file key run → IsRunFile other key run → file ≡ other }
    ensures read { (file : List ℕ) (key : Key) (run : List DataRecord) →
        IsRunFile file key run → IsContinuous file key run }
{}

/// Nothing is lost where a file is split into its runs. The files of the runs, submitted in any
/// order to holdings that have nothing of the recording, are all accepted, and leave just the data
/// records of the whole file.
pub fn nothing_is_lost_by_splitting()
    ensures { RunsRejoin }
{}

/// The files of runs whose annotations were assigned by onset have together the annotations of the
/// recording, each as often. Each is in the file of the run that covers its onset, where one does;
/// else in that of the last run that begins at or before the onset, or, before all, of the first.
pub fn each_annotation_in_its_run()
    ensures { EachInItsRun }
{}

/// Where data records rise in time, each of those by onset has just the annotations for whose
/// onsets it is the last that starts; one whose onset lies in a data record is in that one alone.
/// Starts and samples stay, and each annotation is there once; those of one data record are in
/// order. They are sound, so that their runs have files, where none has too many annotations.
pub fn by_onset()
    ensures which { EachWhereStarted }
    ensures lies { EachWhereItLies }
    ensures alike { StayAlike }
    ensures order { StayInOrder }
    ensures sound { StaySound }
{}

/// What is counted as outside of a run is just what its data records don't cover.
pub fn outside_is_not_covered()
    ensures { OutsideIsNotCovered }
{}

/// Annotations have one order: by onset, then by duration, none first, then by the bytes of the
/// text. Two that are equal in these are one and the same, and both stay.
pub fn annotations_have_one_order()
    ensures { HaveOneOrder }
{}

/// There is just one list of data records by onset, and by onset again it stays. Files of the same
/// times, samples and annotations have the same one, and the same bytes by onset, however the
/// annotations were spread over the data records, and in whatever order; the same is told of them.
pub fn one_by_onset()
    ensures one { AreOneByOnset }
    ensures stays { StaysByOnset }
    ensures spread { AreOneHoweverSpread }
    ensures told { ToldAlike }
{}

/// The data records by onset of a piece are some of those of its card by onset, where the piece has
/// just the annotations of the card that happened in it, and none happened outside of the card.
pub fn pieces_are_of_their_card()
    ensures { PiecesAreOfCard }
{}

/// Files by onset of a card and of its pieces, submitted in any order and as often as one likes to
/// holdings that have nothing of the recording, are all accepted, and leave just the card by onset
/// where it is among them.
pub fn pieces_and_card_are_taken()
    ensures { PiecesAndCardAreTaken }
{}

/// What [`write_canonical`](crate::write_canonical) writes by the outline of
/// [`by_onset`](crate::by_onset), from a file that did not change, is the canonical file of its
/// data records by onset; nor is such a file told as one that changed. Of two files of one
/// recording with the same times, samples and annotations it writes the same bytes, however the
/// annotations were spread over the data records, and in whatever order.
pub fn the_canonical_file_by_onset()
    ensures unchanged { StayJoined }
    ensures file { WritesByOnset }
    ensures alike { WritesAlike }
{}

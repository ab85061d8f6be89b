//! Laws of fragments. The contract of each function is a law, and its body does nothing.
ghost use Rattle.std.specs.Prelude.{◌≡◌, ℕ, ◌++◌, ◌∷◌, [], ◌⊎◌, ◌≤◌, ◌<◌, List, length, Option};
ghost use Rattle.std.specs.Prelude.{Some, None, Ok, Err};
ghost use Rattle.edf_field.specs.Number.{duration_of};
ghost use Rattle.edf_header.specs.Key.{Key, IsKey};
ghost use Rattle.edf_header.specs.Header.{HeaderRecord, Layout, layout_of};
ghost use Rattle.edf_fragment.specs.Fragment.{DataRecord, IsFragmentFile, blocks, ordinary_bytes};
ghost use Rattle.edf_fragment.specs.Signals.{blocks_by_signal, ordinary_bytes_by_signal};
ghost use Rattle.edf_fragment.specs.Fault.{IsFirstFault};
ghost use Rattle.edf_fragment.specs.Parsed.{Parsed, ParsesTo};
ghost use Rattle.edf_fragment.specs.Sound.{AreSoundFrom, FirstMayStart};
ghost use Rattle.edf_fragment.specs.Reading.{ReadsHeader, IsOpenFault, IsNextAnswer};
ghost use Rattle.edf_fragment.specs.Reading.{initial_progress};
ghost use Rattle.edf_fragment.specs.Whole.{HasReadRecords, ReadsFragment, ReadsFragmentFault};
ghost use Rattle.edf_fragment.specs.declared.advance.Progress.{Progress};
ghost use Rattle.edf_fragment.specs.declared.advance.ReaderState.TheVariants.{Reading};
ghost use Rattle.edf_fragment.specs.declared.fault.FragmentFault.{FragmentFault};
ghost use Rattle.edf_fragment.specs.declared.fault.FragmentFault.TheVariants.{Read, Memory};

use edf_header::MOST_RECORDS;

/// A data record holds the bytes of each signal in turn, two for each of its samples (EDF, data
/// records): its annotations blocks are those of the annotations signals, and its ordinary bytes
/// those of the others, joined.
pub fn signals_in_turn()
    ensures blocks { (header : HeaderRecord) (bytes : List ℕ) →
        blocks (layout_of header) bytes ≡ blocks_by_signal header.signals bytes }
    ensures ordinary { (header : HeaderRecord) (bytes : List ℕ) →
        length bytes ≡ (layout_of header).record_bytes →
        ordinary_bytes (layout_of header) bytes ≡ ordinary_bytes_by_signal header.signals bytes }
{}

/// Bytes are the file of at most one fragment.
pub fn one_fragment()
    ensures { (bytes : List ℕ) (key other : Key) (records others : List DataRecord) →
        IsFragmentFile bytes key records → IsFragmentFile bytes other others →
        (key ≡ other) × (records ≡ others) }
{}

/// The file of a fragment has no fault.
pub fn no_fault_where_spelled()
    ensures { (bytes : List ℕ) (key : Key) (records : List DataRecord) (fault : FragmentFault) →
        IsFragmentFile bytes key records → ¬ IsFirstFault bytes fault }
{}

/// Bytes have at most one first fault.
pub fn one_fault()
    ensures { (bytes : List ℕ) (fault other : FragmentFault) →
        IsFirstFault bytes fault → IsFirstFault bytes other → fault ≡ other }
{}

/// Each list of bytes parses to exactly one value: a key with its data records, or a first fault.
pub fn each_parses_to_one()
    ensures some { (bytes : List ℕ) → (parsed : Parsed) × ParsesTo bytes parsed }
    ensures one { (bytes : List ℕ) (parsed other : Parsed) → ParsesTo bytes parsed →
        ParsesTo bytes other → parsed ≡ other }
{}

/// A fragment has a key that headers name, with a duration above 0, and 1 to `MOST_RECORDS` data
/// records, also where the header's count is unknown. These lie in the window, at least a duration
/// apart, and within the limits, and the first before 2085 where the key has no date.
pub fn records_are_sound()
    ensures key { (bytes : List ℕ) (key : Key) (records : List DataRecord) →
        IsFragmentFile bytes key records → IsKey key }
    ensures lasting { (bytes : List ℕ) (key : Key) (records : List DataRecord) →
        IsFragmentFile bytes key records → 0 < duration_of key.duration }
    ensures some { (bytes : List ℕ) (key : Key) (records : List DataRecord) →
        IsFragmentFile bytes key records → 1 ≤ length records }
    ensures few { (bytes : List ℕ) (key : Key) (records : List DataRecord) →
        IsFragmentFile bytes key records → length records ≤ MOST_RECORDS }
    ensures sound { (bytes : List ℕ) (key : Key) (records : List DataRecord) →
        IsFragmentFile bytes key records → AreSoundFrom key 0 records }
    ensures begins { (bytes : List ℕ) (key : Key) (records : List DataRecord) →
        IsFragmentFile bytes key records → FirstMayStart key records }
{}

/// The data records that were read so far are sound under a key that headers name, whose recording
/// may begin with the first. Where the bytes are known to be a fragment's file, they are the first
/// of its data records.
pub fn records_so_far()
    ensures key { (input rest : Option (List ℕ)) (l : Layout) →
        ReadsHeader input rest l → IsKey l.key }
    ensures sound { (input one two : Option (List ℕ)) (l : Layout) (records : List DataRecord)
        (p : Progress) → ReadsHeader input one l → HasReadRecords l one two records p →
        AreSoundFrom l.key 0 records }
    ensures begins { (input one two : Option (List ℕ)) (l : Layout) (records : List DataRecord)
        (p : Progress) → ReadsHeader input one l → HasReadRecords l one two records p →
        FirstMayStart l.key records }
    ensures prefix { (bytes : List ℕ) (one two : Option (List ℕ)) (l : Layout)
        (records : List DataRecord) (p : Progress)
        (key : Key) (spelled : List DataRecord) →
        ReadsHeader (Some bytes) one l → HasReadRecords l one two records p →
        IsFragmentFile bytes key spelled →
        (key ≡ l.key) × ((later : List DataRecord) × (spelled ≡ records ++ later)) }
{}

/// The answers of a reader join to that of the whole: the bytes begin with the data records that
/// were read one by one, and after them `None` and each fault mean what they mean for the whole.
pub fn answers_join()
    ensures none { (l : Layout) (input : Option (List ℕ)) →
        HasReadRecords l input input [] initial_progress }
    ensures more { (l : Layout) (input mid rest : Option (List ℕ)) (records : List DataRecord)
        (p q : Progress) (r : DataRecord) → HasReadRecords l input mid records p →
        p.state ≡ Reading → IsNextAnswer l p q mid rest (Ok (Some r)) →
        HasReadRecords l input rest (records ++ r ∷ []) q × (q.state ≡ Reading) }
    ensures end { (l : Layout) (input one two rest : Option (List ℕ)) (records : List DataRecord)
        (p q : Progress) → ReadsHeader input one l → HasReadRecords l one two records p →
        p.state ≡ Reading → IsNextAnswer l p q two rest (Ok None) →
        ReadsFragment input rest l records }
    ensures fault { (l : Layout) (input one two rest : Option (List ℕ)) (records : List DataRecord)
        (p q : Progress) (fault : FragmentFault) → ReadsHeader input one l →
        HasReadRecords l one two records p → p.state ≡ Reading →
        IsNextAnswer l p q two rest (Err fault) → ReadsFragmentFault input rest fault }
    ensures refused { (input rest : Option (List ℕ)) (fault : FragmentFault) →
        IsOpenFault input rest fault → ReadsFragmentFault input rest fault }
{}

/// A fragment that was read from known bytes is theirs, and a fault that was met is their first,
/// unless a read failed or memory ran out.
pub fn known_bytes()
    ensures fragment { (bytes : List ℕ) (rest : Option (List ℕ)) (l : Layout)
        (records : List DataRecord) → ReadsFragment (Some bytes) rest l records →
        IsFragmentFile bytes l.key records }
    ensures fault { (bytes : List ℕ) (rest : Option (List ℕ)) (fault : FragmentFault) →
        ReadsFragmentFault (Some bytes) rest fault →
        (fault ≡ Read) ⊎ ((fault ≡ Memory) ⊎ IsFirstFault bytes fault) }
{}

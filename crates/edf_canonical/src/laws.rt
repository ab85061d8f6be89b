//! Laws of canonical files. The contract of each function is a law, and its body does nothing.

ghost use Rattle.std.specs.Prelude.{◌≡◌, ℕ, ◌≤◌, List, length};
ghost use Rattle.edf_header.specs.Key.{Key, IsKey};
ghost use Rattle.edf_fragment.specs.Fragment.{DataRecord, IsFragmentFile};
ghost use Rattle.edf_fragment.specs.Sound.{AreSoundFrom, FirstMayStart};
ghost use Rattle.edf_canonical.specs.File.{IsCanonicalFile};

use edf_header::MOST_RECORDS;

/// Data records have at most one canonical file.
pub fn one_canonical_file()
    ensures { (file other : List ℕ) (key : Key) (records : List DataRecord) →
        IsCanonicalFile file key records → IsCanonicalFile other key records → file ≡ other }
{}

/// 1 to `MOST_RECORDS` sound data records, with which the key's recording may begin, have a
/// canonical file, and so have those of each fragment.
pub fn some_canonical_file()
    ensures sound { (key : Key) (records : List DataRecord) →
        IsKey key → AreSoundFrom key 0 records → FirstMayStart key records → 1 ≤ length records →
        length records ≤ MOST_RECORDS → (file : List ℕ) × IsCanonicalFile file key records }
    ensures spelled { (bytes : List ℕ) (key : Key) (records : List DataRecord) →
        IsFragmentFile bytes key records → (file : List ℕ) × IsCanonicalFile file key records }
{}

/// A canonical file is the fragment file of its key and records, so it is its own canonical file.
pub fn a_canonical_file_is_read_again()
    ensures { (file : List ℕ) (key : Key) (records : List DataRecord) →
        IsCanonicalFile file key records → IsFragmentFile file key records }
{}

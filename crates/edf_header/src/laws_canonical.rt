ghost use Rattle.std.specs.Prelude.{◌≡◌, ℕ, ◌+◌, ◌*◌, ◌/◌, ◌^◌, ◌≤◌, ◌⊎◌, List};
ghost use Rattle.edf_header.specs.Key.{Key, IsKey, MayStart};
ghost use Rattle.edf_header.specs.Header.{HeaderRecord, IsHeader};
ghost use Rattle.edf_header.specs.Fault.{IsHeaderFault};
ghost use Rattle.edf_header.specs.declared.fault.HeaderFault.{HeaderFault};
ghost use Rattle.edf_header.specs.Canonical.{IsCanonicalHeader};
ghost use Rattle.edf_header.specs.Spelled.{IsSpelledHeader, IsReadAs, spelled_layout};
ghost use Rattle.edf_header.specs.Signal.{samples};

use crate::limits::{MOST_BLOCK_SAMPLES, MOST_RECORDS};

/// Bytes that are the fields of a header, whatever follows them, are read as what the fields say.
pub fn spelled_reads()
    ensures { (bytes row : List ℕ) (key : Key) (days seconds count : ℕ) → IsKey key →
        IsSpelledHeader bytes key days seconds count row → IsReadAs bytes
        (spelled_layout key ((days * 86_400 + seconds) * 10 ^ 9) count (samples row)) }
{}

/// A canonical header is read as the identity, the second of the start, the number of data records
/// and the samples of the annotations signal that it was made from, where the recording may start
/// there.
pub fn canonical_header_reads()
    ensures { (bytes : List ℕ) (key : Key) (start count block : ℕ) → IsKey key →
        MayStart key start → 1 ≤ count → count ≤ MOST_RECORDS →
        1 ≤ block → block ≤ MOST_BLOCK_SAMPLES → IsCanonicalHeader bytes key start count block →
        IsReadAs bytes (spelled_layout key (start / 10 ^ 9 * 10 ^ 9) count block) }
{}

/// A canonical file has one header.
pub fn one_canonical_header()
    ensures { (bytes other : List ℕ) (key : Key) (start count block : ℕ) →
        IsCanonicalHeader bytes key start count block →
        IsCanonicalHeader other key start count block → bytes ≡ other }
{}

/// Bytes begin with one header at most, and end with one rest after it.
pub fn is_header_one()
    ensures { (bytes rest other_rest : List ℕ) (header other : HeaderRecord) →
        IsHeader bytes header rest → IsHeader bytes other other_rest →
        (header ≡ other) × (rest ≡ other_rest) }
{}

/// Bytes that begin with a header have no fault of a header.
pub fn header_no_fault()
    ensures { (bytes rest : List ℕ) (header : HeaderRecord) (fault : HeaderFault) →
        IsHeader bytes header rest → ¬ IsHeaderFault bytes fault }
{}

/// Bytes have one fault of a header at most.
pub fn one_header_fault()
    ensures { (bytes : List ℕ) (fault other : HeaderFault) → IsHeaderFault bytes fault →
        IsHeaderFault bytes other → fault ≡ other }
{}

/// Each list of bytes begins with a header, or has a first fault of a header.
pub fn header_or_fault()
    ensures { (bytes : List ℕ) →
        ((header : HeaderRecord) × (rest : List ℕ) × IsHeader bytes header rest)
        ⊎ ((fault : HeaderFault) × IsHeaderFault bytes fault) }
{}

//! Each function states a law of headers and identities in its contract, and does nothing.
ghost use Rattle.std.specs.Prelude.{◌≡◌, ◌<◌, ◌≤◌, ℕ, List, All, length};
ghost use Rattle.edf_field.specs.Number.{duration_of};
ghost use Rattle.edf_header.specs.Signal.{columns, signals_of};
ghost use Rattle.edf_header.specs.Key.{Key, IsKey, IsSized, key_bytes, key_at};
ghost use Rattle.edf_header.specs.Header.{HeaderRecord, AreSignals, IsHeader, key_of, layout_of};
ghost use Rattle.edf_header.specs.Header.{IsLayout};
ghost use Rattle.edf_header.specs.Fixed.{FixedPart, IsFixed, IsFixedHeader};
ghost use Rattle.edf_header.specs.Fault.{SignalsFail, IsClean, FixedPartFails, IsFirst};
ghost use Rattle.edf_header.specs.Identity.{IsCleanKey, IsFirstKeyFault, IsShaped};
ghost use Rattle.edf_header.specs.declared.identity.IdentityFault.{IdentityFault};
ghost use Rattle.edf_header.specs.declared.fault.HeaderFault.{HeaderFault};

use crate::header::Header;
use crate::identity::Identity;
use edf_field::MOST_DURATION;

/// Each identity has a key within the bounds of one.
pub fn identity_is_key(identity: &Identity)
    ensures { IsKey identity.now }
{
    // what holds of each identity is known where its fields are read
    let _ = identity.signals();
}

/// Each header has a layout within the bounds of one.
pub fn header_is_layout(header: &Header)
    ensures { IsLayout header.now }
{
    // what holds of each header is known where its fields are read
    let _ = header.count();
}

/// Bytes that are a fixed part have none of the faults E1 to E13.
pub fn fixed_has_no_fault()
    ensures { (bytes : List ℕ) (fixed : FixedPart) → IsFixedHeader bytes fixed →
        IsClean (FixedPartFails bytes) 14 }
{}

/// Bytes are one fixed part at most.
pub fn one_fixed()
    ensures { (bytes : List ℕ) (fixed other : FixedPart) → IsFixedHeader bytes fixed →
        IsFixedHeader bytes other → fixed ≡ other }
{}

/// Bytes have one first fault of the fixed part at most.
pub fn one_fixed_fault()
    ensures { (bytes : List ℕ) (fault other : HeaderFault) → IsFirst (FixedPartFails bytes) fault →
        IsFirst (FixedPartFails bytes) other → fault ≡ other }
{}

/// Each fixed part that bytes are is within the bounds of one.
pub fn spelled_is_fixed()
    ensures { (bytes : List ℕ) (fixed : FixedPart) → IsFixedHeader bytes fixed → IsFixed fixed }
{}

/// Signals that are written in columns are read again from them.
pub fn columns_back()
    ensures { (ss : List (List ℕ)) → All (λ s. length s ≡ 256) ss →
        signals_of (columns ss) (length ss) ≡ ss }
{}

/// A key is read again from its bytes.
pub fn key_back()
    ensures { (k : Key) → IsSized k → key_at (key_bytes k) ≡ k }
{}

/// Bytes that have the length and the mark of an identity's are those of the key that they have.
pub fn bytes_back()
    ensures { (bytes : List ℕ) → IsShaped bytes → key_bytes (key_at bytes) ≡ bytes }
{}

/// Keys that have the same bytes are the same.
pub fn one_key()
    ensures { (k other : Key) → IsKey k → IsKey other → key_bytes k ≡ key_bytes other → k ≡ other }
{}

/// A key's data records last more than 0 and at most [`MOST_DURATION`].
pub fn key_duration()
    ensures some { (k : Key) → IsKey k → 0 < duration_of k.duration }
    ensures bound { (k : Key) → IsKey k → duration_of k.duration ≤ MOST_DURATION }
{}

/// The bytes of a key have none of the faults of an identity.
pub fn key_accepted()
    ensures { (k : Key) → IsKey k → IsCleanKey (key_bytes k) 11 }
{}

/// Bytes have one first fault of an identity at most.
pub fn one_key_fault()
    ensures { (bytes : List ℕ) (fault other : IdentityFault) → IsFirstKeyFault bytes fault →
        IsFirstKeyFault bytes other → fault ≡ other }
{}

/// After one fixed part, bytes are the signals of one header at most.
pub fn one_signals()
    ensures { (bytes : List ℕ) (header other : HeaderRecord) → AreSignals bytes header →
        AreSignals bytes other → header.fixed ≡ other.fixed → header ≡ other }
{}

/// Bytes that are a header's signals have none of the faults E14 to E20.
pub fn signals_have_no_fault()
    ensures { (bytes : List ℕ) (header : HeaderRecord) → AreSignals bytes header →
        IsClean (SignalsFail bytes header.fixed.signal_count) 21 }
{}

/// The recording that a header names has a key, and its layout is within the bounds of one.
pub fn header_key()
    ensures key { (bytes : List ℕ) (header : HeaderRecord) (rest : List ℕ) →
        IsHeader bytes header rest → IsKey (key_of header) }
    ensures layout { (bytes : List ℕ) (header : HeaderRecord) (rest : List ℕ) →
        IsHeader bytes header rest → IsLayout (layout_of header) }
{}
